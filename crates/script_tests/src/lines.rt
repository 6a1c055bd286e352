//! Lines of each kind, and lines that are none.
use script::{Command, command_of};
use std::test::Fail;
use store_model::Request;

/// The first of these lines is empty.
const COMMANDS: &str = "
# anything at all
format
format 8
format 16384
begin A
begin a234567890123456
get A k
get k
put A k %
put k v
scan A % %
scan a b
op A max n 7
op join j %00%ff
stop
stop 18446744073709551615
fuse vault 0
renew data
parallel 16 1000000 show
worker 1000
end";

/// The first of these lines is a space, and the words of some are cut, or two spaces apart.
const NO_COMMANDS: &str = " \nbeg
format 7
format 16385
format 08
format \nopen \nbegin
begin 1A
begin a2345678901234567
begin  A
get A %
get A k k k
get A %zz
get A %AA
get A %4
scan A b a
scan A a a
op A min n 7
stop 18446744073709551616
fuse disk 0
parallel 17 0
parallel 1 0 shown
worker 0";

#[test]
fn lines_that_are_commands(rt: HostRuntime) -> Result<(), Fail> {
    for line in COMMANDS.split('\n') {
        let command = command_of(rt.alloc(), line.as_bytes())?;
        assert!(rt; command.is_some(), "{line}");
    }
    Ok(())
}

#[test]
fn lines_that_are_none(rt: HostRuntime) -> Result<(), Fail> {
    for line in NO_COMMANDS.split('\n') {
        let command = command_of(rt.alloc(), line.as_bytes())?;
        assert!(rt; command.is_none(), "{line}");
    }
    Ok(())
}

/// Whether this is a put in a named transaction.
fn is_put(command: &Option<Command>, name: &[u8], key: &[u8], value: &[u8]) -> bool {
    match command {
        Some(Command::Ask(asked, Request::Put(put, new))) => {
            asked.as_bytes() == name && put.as_bytes() == key && new.as_bytes() == value
        }
        _ => false,
    }
}

#[test]
fn an_escape_is_the_byte_of_its_value(rt: HostRuntime) -> Result<(), Fail> {
    let command = command_of(rt.alloc(), b"put A %25%7e k%0a".as_slice())?;
    assert!(rt; is_put(&command, b"A", b"%~", b"k\n"));
    Ok(())
}
