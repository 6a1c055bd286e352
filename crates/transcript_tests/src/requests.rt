//! Requests, as a script asks them, and their lines.
use script::{Command, Device, Name, command_of};
use std::alloc::Global;
use std::str;
use std::test::Fail;
use store_model::{Key, List, Pair, Reply, Request, Value};
use transcript::{
    request_conflict, request_ended, request_failed, request_full, request_lines, request_refused,
};

/// A request of a transaction.
#[derive(Drop)]
struct Asked {
    name: Name,
    request: Request,
}

/// The request that a line of a script asks.
fn request_in(alloc: Global, line: &str) -> Result<Asked, Fail> {
    match command_of(alloc, line.as_bytes())? {
        Some(Command::Ask(name, request)) => Ok(Asked { name, request }),
        _ => Err(Fail::new("a request")),
    }
}

/// These bytes, if they are text.
fn text_of(bytes: &[u8]) -> &str {
    str::from_utf8(bytes).unwrap_or("?")
}

#[test]
fn each_kind_of_request_has_its_head(rt: HostRuntime) -> Result<(), Fail> {
    let alloc = rt.alloc();
    for (line, expected) in [
        ("get A k", "A get k ended 7\n"),
        ("put Ab2 k v", "Ab2 put k ended 7\n"),
        ("del A %25%0a", "A del %25%0a ended 7\n"),
        ("scan A % %", "A scan % % ended 7\n"),
        ("scan A a b", "A scan a b ended 7\n"),
        ("scan A % a%20b", "A scan % a%20b ended 7\n"),
        ("scan A ~ %", "A scan ~ % ended 7\n"),
        ("op A add n 1", "A op add n ended 7\n"),
        ("op A max n 1", "A op max n ended 7\n"),
        ("op A join n %ff", "A op join n ended 7\n"),
    ] {
        let it = request_in(alloc, line)?;
        let out = request_ended(alloc, &it.name, &it.request, 7)?;
        assert_eq!(rt; text_of(&out), expected);
    }
    Ok(())
}

#[test]
fn a_value_is_found_or_was_there_before(rt: HostRuntime) -> Result<(), Fail> {
    let alloc = rt.alloc();
    let one = || Value::new(b"1".as_slice());
    for (line, reply, expected) in [
        ("get A k", Reply::Found(one()), "A get k = 1\n"),
        (
            "get A k",
            Reply::Found(Some(Value::empty())),
            "A get k = %\n",
        ),
        ("get A k", Reply::Found(None), "A get k none\n"),
        ("put A k 2", Reply::Was(one()), "A put k was = 1\n"),
        ("put A k 2", Reply::Was(None), "A put k was none\n"),
        ("del A k", Reply::Was(one()), "A del k was = 1\n"),
        ("del A k", Reply::Was(None), "A del k was none\n"),
        ("op A add k 2", Reply::Was(one()), "A op add k was = 1\n"),
        ("op A join k 2", Reply::Was(None), "A op join k was none\n"),
    ] {
        let it = request_in(alloc, line)?;
        let out = request_lines(alloc, &it.name, &it.request, &reply)?;
        assert_eq!(rt; text_of(&out), expected);
    }
    Ok(())
}

/// The pair of these texts.
fn pair(key: &[u8], value: &[u8]) -> Result<Pair, Fail> {
    let key = Key::new(key).ok_or("a key")?;
    let value = Value::new(value).ok_or("a value")?;
    Ok(Pair { key, value })
}

#[test]
fn a_scan_has_a_row_for_each_pair(rt: HostRuntime) -> Result<(), Fail> {
    let alloc = rt.alloc();
    let it = request_in(alloc, "scan A a %")?;
    let mut pairs = Vec::new(alloc);
    let none = Reply::Pairs(List::new(alloc));
    let out = request_lines(alloc, &it.name, &it.request, &none)?;
    assert_eq!(rt; text_of(&out), "A scan a % pairs=0\n");
    for (key, value) in [("a", "1"), ("b%", ""), ("c", "two words")] {
        pairs.push(pair(key.as_bytes(), value.as_bytes())?)?;
    }
    let three = Reply::Pairs(List::from_vec(pairs));
    let out = request_lines(alloc, &it.name, &it.request, &three)?;
    let expected = "A scan a % pairs=3\nA row a = 1\nA row b%25 = %\nA row c = two%20words\n";
    assert_eq!(rt; text_of(&out), expected);
    Ok(())
}

#[test]
fn a_request_that_was_not_carried_out_says_why(rt: HostRuntime) -> Result<(), Fail> {
    let alloc = rt.alloc();
    let Asked { name, request } = request_in(alloc, "op A add n 1")?;
    let holder = Name::new(b"B2".as_slice()).ok_or("a name")?;
    let conflict = request_conflict(alloc, &name, &request, &holder)?;
    assert_eq!(rt; text_of(&conflict), "A op add n conflict B2\n");
    let full = request_full(alloc, &name, &request, 16384, 0)?;
    assert_eq!(rt; text_of(&full), "A op add n full 16384 0\n");
    let refused = request_refused(alloc, &name, &request)?;
    assert_eq!(rt; text_of(&refused), "A op add n refused\n");
    let log = request_failed(alloc, &name, &request, Device::Log)?;
    assert_eq!(rt; text_of(&log), "A op add n log failed\n");
    let vault = request_failed(alloc, &name, &request, Device::Vault)?;
    assert_eq!(rt; text_of(&vault), "A op add n vault failed\n");
    Ok(())
}
