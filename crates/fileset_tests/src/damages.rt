//! Damage: bytes that changed, files that are gone, and bytes of no volume that keep to their digests.
use crate::acts::Volumes;
use crate::words::part;
use disk_stories::stories::first_wrong;
use disk_stories::turns::{EACH_BIT, first_untold};
use std::test::Fail;

// Writes a volume of two series.
const TWO: &str = "w2.100.50:hello,100=5,120=-3;zulu,149=-9223372036854775808";

// What is told of the volume then, with the digests that are kept and found.
const DAMAGES: &str =
    "b1.2.100.1:2:ff => digest of 1.2.100.1 kept 3d1036a9141b9ce4c8d1f0f3146a07f3000a9b32d018e47bc13730d850a90e64 found 39314bb51f400ccba7a002598c2f557f5e7091af7bc54c31967650dc34d90ef2|
b2.2.100.1:2:ff => digest of 2.2.100.1 kept e539e801eca9fa07671fe8bde192f415166b88384c1596d99bbce9aea99ae7d5 found ce9389fdbaa4ac2ae82111f13b1b9b931816d7500818fd56867cdb6630e002bf|
b3.2.100.1:2:ff => digest of 3.2.100.1 kept 3385ceba1b1fa3c78cdf45edbd4aea655e04d463ec35d7e7d2f863232762efc6 found 6d7e122e131103d96d291f2bd149df8febff3c003608cf073e823468265cdfda|
b4.2.100.1:2:ff => digest of 4.2.100.1 kept d1f81c690e2521d93b1b597cf61f9de2f45d614d5efa9aa59172cc1c5521fca3 found 74e5cda52067fb21a794c814fad8bd6bb65259667d693f1c98d30f25015cad38|
b5.2.100.1:2:ff => digest of 5.2.100.1 kept e58a3a122f357376d2829cd2c502a26c7664cf4868d5dde19a6c9e75679f190a found cce94f82e6d2ba84c50924dbc7145ce2193640de8ab2369b79301609e7de7ec7|
b6.2.100.1:2:ff => digest of 6.2.100.1 kept 700a8d3101f1a37c915f917c872508c9759769167287bd6c9f42e3607ed2aafc found 2c770ca99a981e8936c44e794c8967dec44508b815e2475d7808ce4b6d598dfe|
b7.2.100.1:2:ff => digest of 6.2.100.1 kept 70ff8d3101f1a37c915f917c872508c9759769167287bd6c9f42e3607ed2aafc found 700a8d3101f1a37c915f917c872508c9759769167287bd6c9f42e3607ed2aafc|
b6.2.100.1:96:2e S2.100.1 => digest of 4.2.100.1 kept 2ef81c690e2521d93b1b597cf61f9de2f45d614d5efa9aa59172cc1c5521fca3 found d1f81c690e2521d93b1b597cf61f9de2f45d614d5efa9aa59172cc1c5521fca3|
d4.2.100.1 c4.2.100.1:0005 => digest of 4.2.100.1 kept d1f81c690e2521d93b1b597cf61f9de2f45d614d5efa9aa59172cc1c5521fca3 found 9f1afa4dc124cba73134e82ff50f17c8f7164257c79fed9a13f5943a6acb8e3d|
d1.2.100.1 => form of 1.2.100.1 at 0|
d2.2.100.1 => form of 2.2.100.1 at 0|
d3.2.100.1 => form of 3.2.100.1 at 0|
d4.2.100.1 => form of 4.2.100.1 at 0|
d5.2.100.1 => form of 5.2.100.1 at 0|
d6.2.100.1 => form of 6.2.100.1 at 0|
d7.2.100.1 => |
b7.2.100.1:0:00 => |
b7.2.100.1:0:02 => |
d7.2.100.1 c7.2.100.1: => |
d7.2.100.1 c7.2.100.1:01 => form of 7.2.100.1 at 1|
d7.2.100.1 c7.2.100.1:010000 => form of 7.2.100.1 at 3|
d7.2.100.1 c7.2.100.1:01700a8d3101f1a37c915f917c872508c9759769167287bd6c9f42e3607ed2aafc00 => form of 7.2.100.1 at 33|
d6.2.100.1 c6.2.100.1:3d1036a9141b9ce4c8d1f0f3146a07f3000a9b32d018e47bc13730d850a90e64e539e801eca9fa07671fe8bde192f415166b88384c1596d99bbce9aea99ae7d53385ceba1b1fa3c78cdf45edbd4aea655e04d463ec35d7e7d2f863232762efc6d1f81c690e2521d93b1b597cf61f9de2f45d614d5efa9aa59172cc1c5521fca3e58a3a122f357376d2829cd2c502a26c7664cf4868d5dde19a6c9e75679f19 S2.100.1 => form of 6.2.100.1 at 159|
d6.2.100.1 c6.2.100.1:3d1036a9141b9ce4c8d1f0f3146a07f3000a9b32d018e47bc13730d850a90e64e539e801eca9fa07671fe8bde192f415166b88384c1596d99bbce9aea99ae7d53385ceba1b1fa3c78cdf45edbd4aea655e04d463ec35d7e7d2f863232762efc6d1f81c690e2521d93b1b597cf61f9de2f45d614d5efa9aa59172cc1c5521fca3e58a3a122f357376d2829cd2c502a26c7664cf4868d5dde19a6c9e75679f190a00 S2.100.1 => form of 6.2.100.1 at 160|
d6.2.100.1 c6.2.100.1: S2.100.1 => form of 6.2.100.1 at 0|
w2.100.50:a,100=1 d1.2.100.2 d5.2.100.1 => form of 5.2.100.1 at 0|
w1.100.50:a,100=1 d1.1.100.1 d1.2.100.1 => form of 1.1.100.1 at 0|
w2.100.50:a,100=1 d1.2.100.2 d5.2.100.2 d6.2.100.2 => form of 6.2.100.2 at 0|";

#[test]
fn damage_is_told(rt: HostRuntime) -> Result<(), Fail> {
    let wrong = first_wrong::<Volumes>(rt.alloc(), TWO, DAMAGES, "e")?;
    assert_eq!(rt; wrong.as_str(), "");
    Ok(())
}

// Bytes that are no volume, or another one, though they keep to their digests: of the info, the summaries, the index, the bloom
// filter and the data.
const RESEALED: &str = "b1.2.100.1:0:00 => |form of 1.2.100.1 at 0|
b1.2.100.1:0:02 => |form of 1.2.100.1 at 0|
b1.2.100.1:1:03 => |form of 1.2.100.1 at 1|
b1.2.100.1:2:80 => |form of 1.2.100.1 at 2|
b1.2.100.1:9:65 => |form of 1.2.100.1 at 9|
b1.2.100.1:10:80 => |form of 1.2.100.1 at 10|
b1.2.100.1:12:01 => |form of 1.2.100.1 at 12|
b1.2.100.1:17:00 => |form of 1.2.100.1 at 17|
b1.2.100.1:18:01 => |form of 1.2.100.1 at 18|
b1.2.100.1:25:02 => |form of 1.2.100.1 at 25|
b1.2.100.1:29:00 => |form of 1.2.100.1 at 29|
b1.2.100.1:29:03 => |form of 1.2.100.1 at 29|
b1.2.100.1:26:01 => |form of 1.2.100.1 at 26|
b1.2.100.1:37:04 => |form of 1.2.100.1 at 37|
b1.2.100.1:30:01 => |form of 1.2.100.1 at 30|
d1.2.100.1 c1.2.100.1:0102000000000000006400000000000000320000 => |form of 1.2.100.1 at 20|
d1.2.100.1 c1.2.100.1:010200000000000000640000000000000032000000000000000100000002000000000000000300 => |form of 1.2.100.1 at 38|
d1.2.100.1 c1.2.100.1: => |form of 1.2.100.1 at 0|
b2.2.100.1:1:04 => |form of 2.2.100.1 at 1|
b2.2.100.1:14:01 => |form of 2.2.100.1 at 14|
d2.2.100.1 c2.2.100.1:000568656c6c6f0000 => |form of 2.2.100.1 at 9|
d2.2.100.1 c2.2.100.1:000568656c6c6f00000000000000000005 => |form of 2.2.100.1 at 15|
b3.2.100.1:3:66 => |form of 3.2.100.1 at 3|
b3.2.100.1:18:2a => |form of 3.2.100.1 at 18|
b3.2.100.1:14:01 => |form of 3.2.100.1 at 14|
b3.2.100.1:32:2c => |form of 3.2.100.1 at 32|
d3.2.100.1 c3.2.100.1:000568656c6c6f00000000000000000000002b00047a756c75000000000000002b000000 => |form of 3.2.100.1 at 36|
d3.2.100.1 c3.2.100.1:000568656c6c6f00000000000000000000002b00047a756c75000000000000002b0000001a00 => |form of 3.2.100.1 at 37|
b5.2.100.1:0:01 => |form of 5.2.100.1 at 0|
b5.2.100.1:3:10 => |form of 5.2.100.1 at 3|
b5.2.100.1:4:42 => |form of 5.2.100.1 at 4|
b5.2.100.1:7:55 => |form of 5.2.100.1 at 7|
d5.2.100.1 c5.2.100.1:0000002041c400 => |form of 5.2.100.1 at 7|
d5.2.100.1 c5.2.100.1:0000002041c4005400 => |form of 5.2.100.1 at 8|
b4.2.100.1:1:06 => |form of 4.2.100.1 at 0|
b4.2.100.1:10:01 => |form of 4.2.100.1 at 0|
b4.2.100.1:18:63 => |form of 4.2.100.1 at 0|
b4.2.100.1:18:96 => |form of 4.2.100.1 at 0|
b4.2.100.1:34:64 => |form of 4.2.100.1 at 0|
b4.2.100.1:45:61 => |form of 4.2.100.1 at 0|
b4.2.100.1:2:80 => |form of 4.2.100.1 at 0|
b4.2.100.1:1:00 => |form of 4.2.100.1 at 0|
d4.2.100.1 c4.2.100.1:000568656c6c6f00000002000000000000006400000000000000050000000000000078fffffffffffffffd00047a756c7500000001000000000000009580000000000000 => |form of 4.2.100.1 at 0|
d4.2.100.1 c4.2.100.1:000568656c6c6f00000002000000000000006400000000000000050000000000000078fffffffffffffffd00047a756c75000000010000000000000095800000000000000000 => |form of 4.2.100.1 at 0|
d4.2.100.1 c4.2.100.1:00047a756c750000000100000000000000958000000000000000000568656c6c6f00000002000000000000006400000000000000050000000000000078fffffffffffffffd => |form of 4.2.100.1 at 0|
d4.2.100.1 c4.2.100.1: => |form of 4.2.100.1 at 0|
b4.2.100.1:26:06 => |2.100.50.1 2/3 (hello 100=6 120=-3)(zulu 149=-9223372036854775808)|
b1.2.100.1:17:33 => |2.100.51.1 2/3 (hello 100=5 120=-3)(zulu 149=-9223372036854775808)|
b1.2.100.1:17:31 => |form of 4.2.100.1 at 0|";

#[test]
fn other_bytes_are_told(rt: HostRuntime) -> Result<(), Fail> {
    let wrong = first_wrong::<Volumes>(rt.alloc(), TWO, RESEALED, "s2.100.1 e")?;
    assert_eq!(rt; wrong.as_str(), "");
    Ok(())
}

// Volumes of other names than the info has, and of names that no volume has.
const NAMES: &str = "y2.100.258 s2.100.258 => form of 1.2.100.258 at 24|
y2.101.1 s2.101.1 => form of 1.2.101.1 at 9|
y3.100.1 s3.100.1 => form of 1.3.100.1 at 1|
y2.100.4611686018427387904 s2.100.4611686018427387904 => form of 1.2.100.4611686018427387904 at 0|
y8.100.1 s8.100.1 => form of 1.8.100.1 at 0|
y2.4611686018427387904.1 s2.4611686018427387904.1 => form of 1.2.4611686018427387904.1 at 0|";

#[test]
fn other_names_are_told(rt: HostRuntime) -> Result<(), Fail> {
    let wrong = first_wrong::<Volumes>(rt.alloc(), TWO, NAMES, "e")?;
    assert_eq!(rt; wrong.as_str(), "");
    Ok(())
}

// The files of the volume, with the lengths that they have.
const LENGTHS: [(u8, usize); 7] = [
    (1, 38),
    (2, 15),
    (3, 37),
    (4, 69),
    (5, 8),
    (6, 160),
    (7, 33),
];

#[test]
fn each_bit_is_told(rt: HostRuntime) -> Result<(), Fail> {
    for (kind, len) in LENGTHS {
        let name = part(kind, "2.100.1");
        let untold = first_untold::<Volumes>(rt.alloc(), [TWO, "v"], name, 0..len, &EACH_BIT)?;
        assert_eq!(rt; untold, None);
    }
    Ok(())
}
