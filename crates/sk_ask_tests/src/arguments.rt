//! What Linux reads of arguments, the constants that they take, and how conditions and calls are written by these.
use sk_arguments::{
    Form, Kind, Naming, argument_name, call_with_constants, decided_by, form_of, kind_of,
    narrow_numbers, number_of_constant, unread_places,
};
use sk_insn::Record;
use sk_names::Architecture;
use sk_survey::taken_as;
use sk_terms::{Register, Term, push_argument, push_term};
use std::test::Fail;

/// The number of socket(2).
const SOCKET: u32 = 41;

#[test]
fn arguments_are_read(rt: HostRuntime) -> Result<(), Fail> {
    let shown = (
        kind_of(SOCKET, 0),
        decided_by(72, 2),
        argument_name(SOCKET, 0),
    );
    assert_eq!(rt; shown, (Kind::Int, Some(1), Some("domain")));
    let places = unread_places(rt.alloc(), SOCKET)?;
    assert_eq!(rt;
        places.as_slice(),
        [20, 28, 36, 40, 44, 48, 52, 56, 60].as_slice()
    );
    let numbers = narrow_numbers(rt.alloc())?;
    assert!(rt; numbers.iter().any(|number| *number == SOCKET));
    let made = Record::native(SOCKET, 0, [0x1_0000_0010, 3, 9, 0, 0, 0]);
    assert_eq!(rt;
        taken_as(made),
        Record::native(SOCKET, 0, [0x10, 3, 9, 0, 0, 0])
    );
    Ok(())
}

#[test]
fn constants_are_found(rt: HostRuntime) -> Result<(), Fail> {
    let known = [Some(16), None, None, None, None, None];
    let protocol = match form_of(SOCKET, 2, &known) {
        Form::One(set) => set.name(9),
        Form::Plain | Form::Bits(_, _) => None,
    };
    assert_eq!(rt; protocol, Some("NETLINK_AUDIT"));
    assert_eq!(rt; number_of_constant(b"CLONE_NEWUSER"), Some(0x1000_0000));
    let execve = call_with_constants(Naming::Constants, Architecture::X32, 0x4000_0208);
    assert_eq!(rt; execve, Some(59));
    Ok(())
}

#[test]
fn numbers_are_written_by_constants(rt: HostRuntime) -> Result<(), Fail> {
    let mut text = String::new(rt.alloc());
    let term = Term {
        register: Register::Argument(0),
        mask: 0x7e02_0000,
        first: 0,
        last: 0,
        inside: true,
    };
    push_term(&mut text, Some(56), term)?;
    push_argument(&mut text, Some(SOCKET), &[16, 0x8_0003, 9, 0, 0, 0], 1)?;
    let wanted =
        "(args[0] & (CLONE_NEWNS|CLONE_NEWCGROUP|CLONE_NEWUTS|CLONE_NEWIPC|CLONE_NEWUSER|CLONE_NEWPID|CLONE_NEWNET)) == 0, SOCK_RAW|SOCK_CLOEXEC";
    assert_eq!(rt; text.as_str(), wanted);
    Ok(())
}
