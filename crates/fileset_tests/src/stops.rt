//! Writes and removals while the disk stops, and reads while it fails, at each of their calls.
use crate::acts::Volumes;
use disk_stories::stops::{At, first_wrong};
use std::test::Fail;

// A write makes 32 calls. Only the last two, the write and the sync of the gate, may leave the volume whole though they failed.
// The next number is one higher once a file was made.
const WRITES: &str =
    "c0.0.0.7:616263 w2.100.50:a,100=1 w2.150.50:b,150=2 w3.100.50:c,100=3%w2.100.50:hello,100=5%2.100.2%k2%0 => -|-|-|-|-|-|-|-|-|-|-|-|-|-|-|-|-|-|-|-|-|-|-|-|-|-|-|-|-|-|-|-|w|
c0.0.0.7:616263 w2.100.50:a,100=1 w2.150.50:b,150=2 w3.100.50:c,100=3%w2.100.50:hello,100=5%2.100.2%k2%85 => -|-|-|-|-|-|-|-|-|-|-|-|-|-|-|-|-|-|-|-|-|-|-|-|-|-|-|-|-|-|w|w|w|
c0.0.0.7:616263 w2.100.50:a,100=1 w2.150.50:b,150=2 w3.100.50:c,100=3%w2.100.50:hello,100=5%2.100.2%k2%170 => -|-|-|-|-|-|-|-|-|-|-|-|-|-|-|-|-|-|-|-|-|-|-|-|-|-|-|-|-|-|-|-|w|
c0.0.0.7:616263 w2.100.50:a,100=1 w2.150.50:b,150=2 w3.100.50:c,100=3%w2.100.50:hello,100=5%2.100.2%k2%255 => -|-|-|-|-|-|-|-|-|-|-|-|-|-|-|-|-|-|-|-|-|-|-|-|-|-|-|-|-|-|-|-|w|
l%w2.100.50:hello,100=5%2.100.1%w2.100.50:x,100=9%0 => 1|1|1|2|2|2|2|2|2|2|2|2|2|2|2|2|2|2|2|2|2|2|2|2|2|2|2|2|2|2|2|2|2|
l%w2.100.50:hello,100=5%2.100.1%w2.100.50:x,100=9%85 => 1|1|1|2|2|2|2|2|2|2|2|2|2|2|2|2|2|2|2|2|2|2|2|2|2|2|2|2|2|2|2|2|2|
c0.0.0.7:616263 w2.100.50:a,100=1 w2.150.50:b,150=2 w3.100.50:c,100=3%w2.100.50:hello,100=5%2.100.2%w2.100.50:x,100=9%0 => 2|2|2|3|3|3|3|3|3|3|3|3|3|3|3|3|3|3|3|3|3|3|3|3|3|3|3|3|3|3|3|3|3|
l%w2.100.50:hello,100=5%2.100.1%q2.100.1%255 => |||1|1|1|1|12|12|12|12|123|123|123|123|1234|1234|1234|1234|12345|12345|12345|12345|123456|123456|123456|123456|1234567|1234567|1234567|1234567|1234567|1234567|";

#[test]
fn stops_of_a_write(rt: HostRuntime) -> Result<(), Fail> {
    let wrong = first_wrong::<Volumes>(rt.alloc(), WRITES, At::Stop)?;
    assert_eq!(rt; wrong.as_str(), "");
    Ok(())
}

// A removal looks for seven files, takes room, and takes away the checkpoint first.
const REMOVALS: &str =
    "c0.0.0.7:616263 w2.100.50:a,100=1 w2.150.50:b,150=2 w3.100.50:c,100=3%x2.100.1%2.100.1%q2.100.1%0 => 1234567|1234567|1234567|1234567|1234567|1234567|1234567|1234567|1234567|123456|23456|3456|456|56|6||
w2.100.50:a,100=1%x2.100.1%2.100.1%k1%255 => w|w|w|w|w|w|w|w|w|-|-|-|-|-|-|-|
c0.0.0.7:616263 w2.100.50:a,100=1 w2.150.50:b,150=2 w3.100.50:c,100=3 c1.2.100.2:00 c6.2.100.2:00%x2.100.2%2.100.2%q2.100.2%85 => 16|16|16|16|16|16|16|16|16|6||";

#[test]
fn stops_of_a_removal(rt: HostRuntime) -> Result<(), Fail> {
    let wrong = first_wrong::<Volumes>(rt.alloc(), REMOVALS, At::Stop)?;
    assert_eq!(rt; wrong.as_str(), "");
    Ok(())
}

// A volume is listed by 17 calls.
const FAULTS: &str =
    "w2.100.50:hello,100=5%v => fault|fault|fault|fault|fault|fault|fault|fault|fault|fault|fault|fault|fault|fault|fault|fault|fault|2.100.50.1 1/1 fault|2.100.50.1 1/1 fault|2.100.50.1 1/1 (hello 100=5)|
w2.100.50:hello,100=5%rhello => fault|fault|fault|fault|fault|fault|fault|fault|fault|fault|fault|fault|fault|fault|fault|fault|fault|2.100.50.1 1/1 fault|2.100.50.1 1/1 fault|2.100.50.1 1/1 (hello 100=5)|
w2.100.50:hello,100=5%n => fault|fault|fault| 7.2.100.1|
w2.100.50:hello,100=5%x2.100.1 => fault|fault|fault|fault|fault|fault|fault|fault|fault|fault|fault|fault|fault|fault|fault||
w2.100.50:hello,100=5%w2.100.50:x,100=9 => fault|fault|fault|fault|fault|fault|fault|fault|fault|fault|fault|fault|fault|fault|fault|fault|fault|fault|fault|fault|fault|fault|fault|fault|fault|fault|fault|fault|fault|fault|fault|fault|2|";

#[test]
fn faults_are_told(rt: HostRuntime) -> Result<(), Fail> {
    let wrong = first_wrong::<Volumes>(rt.alloc(), FAULTS, At::Fault)?;
    assert_eq!(rt; wrong.as_str(), "");
    Ok(())
}
