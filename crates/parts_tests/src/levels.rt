use m3_model::{ReadLevel, WriteLevel};
use quorum_count::{needed_read, needed_write};

// Replicas, then how many a write needs at one, majority and all, then a read at one, unstrict, majority and all.
const LEVELS: &str = "1 111 1111
2 122 1122
3 123 1123
4 134 1134
5 135 1135";

fn digit(byte: u8) -> u32 {
    (byte & 15) as u32
}

fn writes_need(rf: u32, want: &str) -> bool {
    let levels = [WriteLevel::One, WriteLevel::Majority, WriteLevel::All];
    want.len() == levels.len()
        && levels
            .iter()
            .zip(want.as_bytes())
            .all(|(level, byte)| needed_write(*level, rf) == digit(*byte))
}

fn reads_need(rf: u32, want: &str) -> bool {
    let levels = [
        ReadLevel::One,
        ReadLevel::Unstrict,
        ReadLevel::Majority,
        ReadLevel::All,
    ];
    want.len() == levels.len()
        && levels
            .iter()
            .zip(want.as_bytes())
            .all(|(level, byte)| needed_read(*level, rf) == digit(*byte))
}

#[test]
fn levels_need(rt: HostRuntime) {
    for row in LEVELS.lines() {
        let (rf, rest) = row.split_once(' ').unwrap_or(("", ""));
        let (writes, reads) = rest.split_once(' ').unwrap_or(("", ""));
        let rf = match rf.as_bytes() {
            [byte] => digit(*byte),
            _ => 0,
        };
        assert!(rt; writes_need(rf, writes) && reads_need(rf, reads), "{row}");
    }
}
