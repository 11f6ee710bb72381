use line_fields::LineErr;
use m3_json::of_json::Scratch;
use m3_json::read_line;
use m3_model::{Act, Matcher, Request};
use std::alloc::Global;
use std::test::Fail;

// Objects and their ops, each with its outcome before it.
const OBJECTS: &str = r#"form {
form []
form "init"
form {}
form {"op":7}
form {"op":null}
form {"op":"frob"}
ok {"op":"tick"}
later {"op":"par"}
later {"op":"par","clients":"x","now":0}
form {"op":"tick","op":"frob"}
ok {"op":"frob","op":"status"}
form {"op":"tick"} x
form {"op":"par","x":"\ud800"}
later {"op":"par","x":"\ud800\udc00"}"#;

// Lines of init, each with its outcome before it.
const INITS: &str =
    r#"ok {"op":"init","rf":3,"shards":1,"seed":0,"nodes":[["a","x"],["b","y"],["c","z"]]}
ok {"op":"init","rf":3,"shards":64,"seed":4294967295,"nodes":[["a","x"],["b","y"],["c","z"]]}
ok {"op":"init","rf":1,"shards":8,"seed":0,"nodes":[["a","x"]]}
ok {"op":"init","rf":5,"shards":64,"seed":0,"nodes":[["a","1"],["b","2"],["c","3"],["d","4"],["e","5"]]}
form {"op":"init","rf":3,"shards":1,"seed":4294967296,"nodes":[["a","x"],["b","y"],["c","z"]]}
ok {"op":"init","rf":1,"shards":1,"seed":0,"nodes":[["a","x"],["b","y"],["c","z"]]}
ok {"op":"init","rf":5,"shards":64,"seed":0,"nodes":[["a","x"]]}
form {"op":"init","rf":0,"shards":1,"seed":0,"nodes":[["a","x"],["b","y"],["c","z"]]}
form {"op":"init","rf":6,"shards":1,"seed":0,"nodes":[["a","x"],["b","y"],["c","z"]]}
form {"op":"init","rf":3,"shards":65,"seed":0,"nodes":[["a","x"],["b","y"],["c","z"]]}
form {"op":"init","rf":3,"shards":0,"seed":0,"nodes":[["a","x"],["b","y"],["c","z"]]}
form {"op":"init","rf":3,"shards":1,"seed":0,"nodes":[["a","x"],["a","y"],["c","z"]]}
ok {"op":"init","rf":3,"shards":1,"seed":0,"nodes":[["a","x"],["b","y"],["c","x"]]}
ok {"op":"init","rf":3,"shards":1,"seed":0,"nodes":[["a","x"],["b","y"]]}
form {"op":"init","rf":3,"shards":1,"seed":0,"nodes":[["a","x"],["b","y"],["c"]]}
form {"op":"init","rf":3,"shards":1,"seed":0,"nodes":[["a","x"],["b","y"],["c","z","u"]]}
form {"op":"init","rf":3,"shards":1,"seed":0,"nodes":[]}
form {"op":"init","rf":3,"shards":1,"seed":0,"nodes":{}}
ok {"op":"init","rf":3,"shards":1,"seed":0,"nodes":[["1","g"],["2","g"],["3","g"],["4","g"],["5","g"],["6","g"],["7","g"],["8","g"],["9","g"],["10","g"],["11","g"],["12","g"],["13","g"],["14","g"],["15","g"],["16","g"]]}
form {"op":"init","rf":3,"shards":1,"seed":0,"nodes":[["1","g"],["2","g"],["3","g"],["4","g"],["5","g"],["6","g"],["7","g"],["8","g"],["9","g"],["10","g"],["11","g"],["12","g"],["13","g"],["14","g"],["15","g"],["16","g"],["17","g"]]}"#;

// Lines of namespace, each with its outcome before it.
const NAMESPACES: &str =
    r#"ok {"op":"namespace","name":"m","block":1,"past":0,"future":0,"retention":1}
ok {"op":"namespace","name":"a_B-9","block":100,"past":99,"future":99,"retention":1099511627775}
form {"op":"namespace","name":"m","block":0,"past":0,"future":0,"retention":1}
form {"op":"namespace","name":"m","block":100,"past":100,"future":0,"retention":100}
form {"op":"namespace","name":"m","block":100,"past":0,"future":100,"retention":100}
form {"op":"namespace","name":"m","block":100,"past":0,"future":0,"retention":99}
form {"op":"namespace","name":"m","block":100,"past":0,"future":0,"retention":1099511627776}
form {"op":"namespace","name":"m.n","block":1,"past":0,"future":0,"retention":1}
form {"op":"namespace","name":"","block":1,"past":0,"future":0,"retention":1}
form {"op":"namespace","name":"m","block":1,"past":0,"future":0}
form {"op":"namespace","name":"m","block":1,"past":0,"future":0,"retention":1,"x":1}"#;

// Lines of now, each with its outcome before it.
const MOMENTS: &str = r#"ok {"op":"now","now":0}
ok {"op":"now","now":4611686018427387903}
form {"op":"now","now":4611686018427387904}
form {"op":"now","now":-1}
form {"op":"now","now":"1"}
form {"op":"now"}
form {"op":"now","now":1,"x":1}
ok {"op":"now","now":"x","now":1}"#;

// Lines of write and fetch, each with its outcome before it.
const CALLS: &str = r#"ok {"op":"write","ns":"m","id":"hello","t":100,"v":1}
form {"op":"write","ns":"m","id":"hello","t":100,"v":1.5}
form {"op":"write","ns":"m","id":"hello","t":100,"v":1.0}
form {"op":"write","ns":"m","id":"hello","t":100,"v":-0}
form {"op":"write","ns":"m","id":"hello","t":1e2,"v":1}
form {"op":"write","ns":"m","id":"hello","t":-1,"v":1}
ok {"op":"write","ns":"m","id":"hello","t":4611686018427387903,"v":1}
form {"op":"write","ns":"m","id":"hello","t":4611686018427387904,"v":1}
ok {"op":"write","ns":"m","id":"hello","t":100,"v":9223372036854775807}
form {"op":"write","ns":"m","id":"hello","t":100,"v":9223372036854775808}
ok {"op":"write","ns":"m","id":"hello","t":100,"v":-9223372036854775808}
form {"op":"write","ns":"m","id":"hello","t":100,"v":-9223372036854775809}
ok {"op":"write","ns":"m","id":"{dc=\"x\"}","t":100,"v":1}
ok {"op":"write","ns":"m","id":"{dc=\"x\",host=\"\"}","t":100,"v":1}
form {"op":"write","ns":"m","id":"{host=\"x\",dc=\"x\"}","t":100,"v":1}
form {"op":"write","ns":"m","id":"{dc=\"x\"","t":100,"v":1,"level":"one"}
ok {"op":"write","ns":"m","id":"{dc=\"x\"}","t":100,"v":1,"level":"one"}
form {"op":"write","ns":"m","id":7,"t":100,"v":1}
form {"op":"write","ns":"m","id":"{dc=\"x\"}","t":100,"v":1.5}
form {"op":"write","ns":"m","id":"","t":100,"v":1}
ok {"op":"write","ns":"m","id":"a","t":100,"v":1,"level":"all"}
ok {"op":"write","ns":"m","id":"a","t":100,"v":1,"level":"majority"}
ok {"op":"write","ns":"m","id":"a","t":100,"v":1,"level":"one","version":1}
form {"op":"write","ns":"m","id":"a","t":100,"v":1,"level":"unstrict"}
form {"op":"write","ns":"m","id":"a","t":100,"v":1,"level":"frob"}
form {"op":"write","ns":"m","id":"a","t":100,"v":1,"level":null}
ok {"op":"write","ns":"m","id":"a","t":100,"v":1,"version":1}
form {"op":"write","ns":"m","id":"a","t":100,"v":1,"version":-1}
form {"op":"write","ns":"m","id":"a","t":100,"v":1,"version":1,"level":"frob"}
ok {"op":"write","ns":"m","id":"a","t":100,"v":1.5,"v":2}
form {"op":"write","ns":"m","id":"a","t":100,"v":2,"v":1.5}
form {"op":"write","ns":"m","id":"a","t":100}
ok {"op":"fetch","ns":"m","id":"a","from":0,"to":4611686018427387903}
ok {"op":"fetch","ns":"m","id":"a","from":9,"to":0}
ok {"op":"fetch","ns":"m","id":"a","from":0,"to":9,"level":"unstrict"}
ok {"op":"fetch","ns":"m","id":"a","from":0,"to":9,"level":"all"}
ok {"op":"fetch","ns":"m","id":"a","from":0,"to":9,"version":0}
form {"op":"fetch","ns":"m","id":"a","from":0,"to":9,"level":"Majority"}
form {"op":"fetch","ns":"m","id":"{","from":0,"to":9}
form {"op":"fetch","ns":"m","id":"{}","from":0,"to":9,"version":1}
ok {"op":"fetch","ns":"m","id":"{dc=\"\\\\\"}","from":0,"to":9}
form {"op":"fetch","ns":"m","id":"a","from":0,"to":9,"t":1}"#;

// Lines of match, each with its outcome before it.
const MATCHES: &str = r#"ok {"op":"match","ns":"m","where":[],"from":0,"to":9}
ok {"op":"match","ns":"m","where":[["dc","=","x"],["dc","=","x"],["_h1","!=",""]],"from":9,"to":0}
form {"op":"match","ns":"m","from":0,"to":9}
form {"op":"match","ns":"m","where":{},"from":0,"to":9}
form {"op":"match","ns":"m","where":["dc","=","x"],"from":0,"to":9}
form {"op":"match","ns":"m","where":[["dc","x"]],"from":0,"to":9}
form {"op":"match","ns":"m","where":[["dc","=","x","y"]],"from":0,"to":9}
form {"op":"match","ns":"m","where":[["1c","=","x"]],"from":0,"to":9}
form {"op":"match","ns":"m","where":[["d-c","=","x"]],"from":0,"to":9}
form {"op":"match","ns":"m","where":[["","=","x"]],"from":0,"to":9}
form {"op":"match","ns":"m","where":[["dc","==","x"]],"from":0,"to":9}
form {"op":"match","ns":"m","where":[["dc","!==","x"]],"from":0,"to":9}
form {"op":"match","ns":"m","where":[["dc","=",1]],"from":0,"to":9}
form {"op":"match","ns":"m","where":[],"from":0,"to":9,"id":"a"}
form {"op":"match","ns":"m","where":[],"from":0,"to":4611686018427387904}
ok {"op":"match","ns":"m","where":[],"from":0,"to":9,"level":"one"}
form {"op":"match","ns":"m","where":[],"from":0,"to":9,"level":"some"}
ok {"op":"match","ns":"m","where":[],"from":0,"to":9,"version":1}
ok {"op":"match","ns":"m","where":[["a","=",""],["a","=",""],["a","=",""],["a","=",""],["a","=",""],["a","=",""],["a","=",""],["a","=",""],["a","=",""],["a","=",""],["a","=",""],["a","=",""],["a","=",""],["a","=",""],["a","=",""],["a","=",""]],"from":0,"to":9}
form {"op":"match","ns":"m","where":[["a","=",""],["a","=",""],["a","=",""],["a","=",""],["a","=",""],["a","=",""],["a","=",""],["a","=",""],["a","=",""],["a","=",""],["a","=",""],["a","=",""],["a","=",""],["a","=",""],["a","=",""],["a","=",""],["a","=",""]],"from":0,"to":9}"#;

// Lines of fates, deliver and stop, each with its outcome before it.
const FATES: &str = r#"ok {"op":"fates","list":[]}
ok {"op":"fates","list":[[0,0,"b","late"],[0,0,"c","late"],[0,1,"b","lose"],[8,4611686018427387903,"b","twice"]]}
form {"op":"fates","list":[[9,0,"b","late"]]}
form {"op":"fates","list":[[0,4611686018427387904,"b","late"]]}
form {"op":"fates","list":[[0,0,"b","deliver"]]}
form {"op":"fates","list":[[0,0,"","late"]]}
form {"op":"fates","list":[[0,0,"b"]]}
form {"op":"fates","list":[[0,0,"b","late",0]]}
form {"op":"fates","list":[[0,0,"b","late"],[0,1,"b","late"],[0,0,"b","lose"]]}
form {"op":"fates"}
form {"op":"fates","list":{}}
form {"op":"fates","list":[],"x":1}
ok {"op":"deliver"}
form {"op":"deliver","list":[]}
ok {"op":"stop","node":"a"}
form {"op":"stop"}
form {"op":"stop","node":"a b"}
form {"op":"stop","node":"a","pick":0}
form {"op":"stop","node":"a","shard":0}
form {"op":"stop","node":"123456789012345678901234567890123"}"#;

// Lines of restart and bootstrap, each with its outcome before it.
const NODES: &str = r#"ok {"op":"restart","node":"a"}
ok {"op":"restart","node":"12345678901234567890123456789012","pick":0}
ok {"pick":4611686018427387903,"node":"a","op":"restart"}
ok {"op":"restart","node":"a","pick":-1,"pick":7}
form {"op":"restart","node":"a","pick":4611686018427387904}
form {"op":"restart","node":"a","pick":-1}
form {"op":"restart","node":"a","pick":1.0}
form {"op":"restart","node":"a","pick":"0"}
form {"op":"restart","node":"a","pick":null}
form {"op":"restart"}
form {"op":"restart","pick":0}
form {"op":"restart","node":0}
form {"op":"restart","node":""}
form {"op":"restart","node":"a.b"}
form {"op":"restart","node":"123456789012345678901234567890123"}
form {"op":"restart","node":"a","shard":0}
form {"op":"restart","node":"a","pick":0,"x":0}
ok {"op":"bootstrap","node":"a"}
ok {"op":"bootstrap","node":"12345678901234567890123456789012","shard":0}
ok {"shard":63,"node":"a","op":"bootstrap"}
form {"op":"bootstrap","node":"a","shard":64}
form {"op":"bootstrap","node":"a","shard":4294967296}
form {"op":"bootstrap","node":"a","shard":-1}
form {"op":"bootstrap","node":"a","shard":0.0}
form {"op":"bootstrap","node":"a","shard":"0"}
form {"op":"bootstrap","node":"a","shard":null}
form {"op":"bootstrap"}
form {"op":"bootstrap","shard":0}
form {"op":"bootstrap","node":["a"]}
form {"op":"bootstrap","node":""}
form {"op":"bootstrap","node":"a b"}
form {"op":"bootstrap","node":"123456789012345678901234567890123"}
form {"op":"bootstrap","node":"a","pick":0}
form {"op":"bootstrap","node":"a","shard":0,"x":0}"#;

// Lines of add, drain, cancel, remove and replace, each with its outcome before it.
const PLACEMENTS: &str = r#"ok {"op":"add","node":"d","group":"g4"}
ok {"group":"12345678901234567890123456789012","node":"-","op":"add"}
ok {"op":"add","node":"d","group":"","group":"d"}
form {"op":"add"}
form {"op":"add","node":"d"}
form {"op":"add","group":"g4"}
form {"op":"add","node":"","group":"g4"}
form {"op":"add","node":"d","group":""}
form {"op":"add","node":"d d","group":"g4"}
form {"op":"add","node":"d","group":"g.4"}
form {"op":"add","node":["d"],"group":"g4"}
form {"op":"add","node":"d","group":null}
form {"op":"add","node":"123456789012345678901234567890123","group":"g4"}
form {"op":"add","node":"d","group":"123456789012345678901234567890123"}
form {"op":"add","node":"d","group":"g4","by":"e"}
ok {"op":"drain","node":"a"}
form {"op":"drain"}
form {"op":"drain","node":""}
form {"op":"drain","node":"a","group":"g1"}
ok {"op":"cancel","node":"a"}
form {"op":"cancel","nodes":"a"}
form {"op":"cancel","node":1}
form {"op":"cancel","node":"a","shard":0}
ok {"node":"12345678901234567890123456789012","op":"remove"}
form {"op":"remove"}
form {"op":"remove","node":"a b"}
form {"op":"remove","node":"123456789012345678901234567890123"}
form {"op":"remove","node":"a","x":null}
ok {"op":"replace","node":"a","by":"d","group":"g4"}
ok {"group":"a","by":"a","node":"a","op":"replace"}
form {"op":"replace","node":"a","by":"d"}
form {"op":"replace","node":"a","group":"g4"}
form {"op":"replace","by":"d","group":"g4"}
form {"op":"replace","node":"","by":"d","group":"g4"}
form {"op":"replace","node":"a","by":"","group":"g4"}
form {"op":"replace","node":"a","by":"d","group":""}
form {"op":"replace","node":"a","by":"d.","group":"g4"}
form {"op":"replace","node":"a","by":["d"],"group":"g4"}
form {"op":"replace","node":"a","by":"123456789012345678901234567890123","group":"g4"}
form {"op":"replace","node":"a","by":"d","by":null,"group":"g4"}
form {"op":"replace","node":"a","by":"d","group":"g4","x":0}"#;

// Lines of tick, flush, snapshot, repair and status, each with its outcome before it.
const UPKEEP: &str = r#"ok {"op":"tick"}
form {"op":"tick","now":0}
form {"op":"tick","":null}
ok {"op":"flush"}
form {"op":"flush","x":1}
form {"op":"flush","node":"a"}
ok { "op" : "snapshot" }
form {"op":"snapshot","shard":0}
later {"\u006fp":"re\u0070air"}
form {"op":"repair","shard":0}
ok {"op":"frob","op":"status"}
form {"op":"status","node":"a"}
form {"op":"status","Op":"status"}
form {"op":"Status"}
form {"op":"ticks"}"#;

// Lines whose parts are spelled by escapes, come twice or aren't JSON, each with its outcome before it.
const SPELLINGS: &str = r#"ok {"op":"st\u006fp","n\u006fde":"\u0061"}
form {"op":"deliver","\u006fp":7}
ok {"op":7,"\u006fp":"deliver"}
form {"op":"deliver","\u0078":1}
form {"op":"stop","node":"a\u0020b"}
form {"op":"stop","node\u0000":"a"}
form {"op":"stop","node":"a","n\u006fde":null}
later {"op":"par","":"\""}
form {"op":"par","x":"\x"}
form {"op":"par","x":"\u00g0"}
form {"op":"par","x":"\udc00"}
form {"op":"par","x\ud800\ud800":1}
later {"op":"par","x":{"op":"frob","op":7}}"#;

// Lines with numbers that a number of JSON or of 64 bits just can or can't be, each with its outcome before it.
const NUMBERS: &str = r#"later {"op":"par","x":1.7976931348623157e308}
form {"op":"par","x":1.7976931348623159e308}
form {"op":"par","x":[0,{"y":-1e309}]}
form {"op":"par","x":1e309,"x":1}
later {"op":"par","x":1e-400}
form {"op":"par","x":01}
form {"op":"par","x":-}
form {"op":"par","x":1.}
form {"op":"par","x":.5}
form {"op":"now","now":18446744073709551615}
form {"op":"now","now":18446744073709551616}
form {"op":"now","now":4611686018427387903.0}
form {"op":"now","now":-0}
ok {"op":"now","now":1e308,"now":0}
form {"op":"now","now":1e309,"now":0}"#;

fn outcome(alloc: Global, line: &[u8]) -> &'static str {
    match read_line(alloc, &mut Scratch::new(alloc), line) {
        Ok(_) => "ok",
        Err(LineErr::Form) => "form",
        Err(LineErr::Later) => "later",
        Err(LineErr::Memory) => "memory",
    }
}

// The first row whose line has another outcome.
fn wrong_row(alloc: Global, rows: &str) -> Option<&str> {
    rows.lines().find(|row| match row.split_once(' ') {
        Some((want, line)) => outcome(alloc, line.as_bytes()) != want,
        None => true,
    })
}

#[test]
fn rows(rt: HostRuntime) {
    for rows in [
        OBJECTS, INITS, NAMESPACES, MOMENTS, CALLS, MATCHES, FATES, NODES, PLACEMENTS, UPKEEP,
        SPELLINGS, NUMBERS,
    ] {
        assert_eq!(rt; wrong_row(rt.alloc(), rows), None);
    }
}

#[test]
fn bytes(rt: HostRuntime) {
    let table: [(&[u8], &str); 9] = [
        (b"", "form"),
        (b"{\"op\":\"tick\"}\r", "ok"),
        (b"\xef\xbb\xbf{\"op\":\"tick\"}", "form"),
        (b"{\"op\":\"par\",\"x\":\"\xff\"}", "form"),
        (b"{\"op\":\"par\",\"\xff\":1}", "form"),
        (b"{\"op\":\"par\",\"x\":\"\\n\xed\xa0\x80\"}", "form"),
        (b"{\"op\":\"par\",\"x\":\"\xc0\x80\"}", "form"),
        (b"{\"op\":\"par\",\"x\":\"\xc3\xa9\"}", "later"),
        (b"{\"op\":\"tick\"}\xc3", "form"),
    ];
    for (line, want) in table {
        assert_eq!(rt; outcome(rt.alloc(), line), want);
    }
}

fn push_times(line: &mut String, piece: &str, count: usize) -> Result<(), Fail> {
    for _ in 0..count {
        line.push_str(piece)?;
    }
    Ok(())
}

// The outcome of a line whose middle is so many times the piece, and then as often what closes it.
fn long_outcome(
    alloc: Global,
    front: &str,
    piece: &str,
    closing: &str,
    count: usize,
    back: &str,
) -> Result<&'static str, Fail> {
    let mut line = String::from_str(alloc, front)?;
    push_times(&mut line, piece, count)?;
    push_times(&mut line, closing, count)?;
    line.push_str(back)?;
    Ok(outcome(alloc, line.as_bytes()))
}

#[test]
fn long_lines(rt: HostRuntime) -> Result<(), Fail> {
    let id = r#"{"op":"write","ns":"m","id":""#;
    let id_end = r#"","t":1,"v":1}"#;
    let ns = r#"{"op":"write","ns":""#;
    let ns_end = r#"","id":"a","t":1,"v":1}"#;
    let par = r#"{"op":"par","x":"#;
    let par_text = r#"{"op":"par","x":""#;
    let stop = r#"{"op":"stop""#;
    let stop_end = r#","n\u006fde":"\u0061"}"#;
    for (front, piece, closing, count, back, want) in [
        ("", "[", "", 10_000, "", "form"),
        (par, "9", "", 400, "}", "form"),
        (id, "x", "", 512, id_end, "ok"),
        (id, "x", "", 513, id_end, "form"),
        (id, r"\u0078", "", 512, id_end, "ok"),
        (id, r"\u0078", "", 513, id_end, "form"),
        (ns, "m", "", 32, ns_end, "ok"),
        (ns, "m", "", 33, ns_end, "form"),
        (par, "[", "]", 126, "}", "later"),
        (par, "[", "]", 127, "}", "form"),
        (par, r#"{"y":["#, "]}", 63, "}", "later"),
        (par, r#"{"y":["#, "]}", 64, "}", "form"),
        (par_text, "y", "", 65_000, r#""}"#, "later"),
        (par_text, r"\u0079", "", 10_000, r#""}"#, "later"),
        (r#"{"op":"par","x":[0"#, ",1", "", 30_000, "]}", "later"),
        (stop, " ", "", 65_000, stop_end, "ok"),
        (stop, " ", "", 65_000, r#","node":"a b"}"#, "form"),
    ] {
        let got = long_outcome(rt.alloc(), front, piece, closing, count, back)?;
        assert_eq!(rt; got, want, "{count} of {piece}");
    }
    Ok(())
}

// Lines of fields in another order, each with what is read of it before it.
const FIELDS: &str =
    r#"write m hello 100 -7 Majority None => {"v":-7,"t":100,"id":"hello","ns":"m","op":"write"}
fetch m hello 2 9 Majority None => {"to":9,"from":2,"id":"hello","ns":"m","op":"fetch"}
match m dc=x h!= 2 9 => {"where":[["dc","=","x"],["h","!=",""]],"to":9,"from":2,"ns":"m","op":"match"}"#;

// The same of lines whose texts have escapes, and whose keys come twice.
const SPELLED_FIELDS: &str =
    r#"write m hello 100 -7 Majority None => {"\u006fp":"wr\u0069te","n\u0073":"\u006d","\u0069d":"h\u0065l\u006co","\u0074":100,"v":-7}
write m {dc="x"} 1 2 One None => {"l\u0065vel":"o\u006ee","id":"{dc=\"\u0078\"}","v":2,"t":1,"ns":"m","op":"write"}
write m b 1 3 Majority None => {"op":"write","ns":"m","id":"a","t":1,"v":1,"\u0069d":"b","v":2,"\u0076":3}
write m b 1 3 Majority None => {"op":"fetch","\u006fp":"write","ns":"n","ns":"m","id":"\u0061","id":"b","t":1,"v":"x","v":3}
fetch m a 2 9 Majority None => {"op":"write","ns":"m","id":"a","from":[9,{"from":8}],"from":2,"to":9,"op":"fetch"}
match m dc=a"\/é😀 h!=é 2 9 => {"where":[["d\u0063","\u003d","a\"\\\/\u00e9\ud83d\ude00"],["h","!=","é"]],"to":9,"from":2,"ns":"m","op":"match"}"#;

fn tell_matcher(matcher: &Matcher, out: &mut String) -> Result<(), Fail> {
    let sign = if matcher.equal { "=" } else { "!=" };
    Ok(write!(
        out,
        "{}{sign}{} ",
        matcher.name.as_str(),
        matcher.value.as_str()
    )?)
}

fn tell_matchers(wanted: &[Matcher], out: &mut String) -> Result<(), Fail> {
    for matcher in wanted {
        tell_matcher(matcher, out)?;
    }
    Ok(())
}

fn tell_act(act: &Act, out: &mut String) -> Result<(), Fail> {
    match act {
        Act::Write {
            ns,
            id,
            t,
            v,
            level,
            version,
        } => write!(
            out,
            "write {} {} {t} {v} {level:?} {version:?}",
            ns.as_str(),
            id.as_str()
        )?,
        Act::Fetch {
            ns,
            id,
            from,
            to,
            level,
            version,
        } => write!(
            out,
            "fetch {} {} {from} {to} {level:?} {version:?}",
            ns.as_str(),
            id.as_str()
        )?,
        Act::Match {
            ns,
            wanted,
            from,
            to,
            ..
        } => {
            write!(out, "match {} ", ns.as_str())?;
            tell_matchers(wanted.as_slice(), out)?;
            write!(out, "{from} {to}")?;
        }
        _ => {}
    }
    Ok(())
}

fn tell_request(request: &Request, out: &mut String) -> Result<(), Fail> {
    match request {
        Request::One(act) => tell_act(act, out),
        Request::Par { .. } => Ok(()),
    }
}

fn tell_line(alloc: Global, line: &str, out: &mut String) -> Result<(), Fail> {
    if let Ok(request) = read_line(alloc, &mut Scratch::new(alloc), line.as_bytes()) {
        tell_request(&request, out)?;
    }
    Ok(write!(out, " => {line}\n")?)
}

fn tell_rows(alloc: Global, rows: &str, out: &mut String) -> Result<(), Fail> {
    for row in rows.lines() {
        let (_, line) = row.split_once(" => ").unwrap_or(("", ""));
        tell_line(alloc, line, out)?;
    }
    Ok(())
}

#[test]
fn fields(rt: HostRuntime) -> Result<(), Fail> {
    let mut out = String::new(rt.alloc());
    tell_rows(rt.alloc(), FIELDS, &mut out)?;
    assert_eq!(rt; out.as_str().trim_end(), FIELDS);
    let mut spelled = String::new(rt.alloc());
    tell_rows(rt.alloc(), SPELLED_FIELDS, &mut spelled)?;
    assert_eq!(rt; spelled.as_str().trim_end(), SPELLED_FIELDS);
    Ok(())
}
