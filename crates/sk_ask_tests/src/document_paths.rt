//! A small document of a replay and one of a path, from a log and a filter.
use sk_asm::assemble;
use sk_document::{Decider, Decision, replay_document, why_document};
use sk_filter::{Chain, check};
use sk_insn::Record;
use sk_names::Architecture;
use sk_replay::replay;
use std::alloc::Global;
use std::str;
use std::test::Fail;

/// Refuses getppid(2).
const FILTER: &[u8] = b"ldabs 0\njeq 110 +0 +1\nret errno/1\nret allow";

const LOG: &[u8] =
    b"9 getppid() = 0x1\n9 read(0x3, 0, 0x10) = 0x2\n9 getppid() = 0x1\n9 +++ exited with 0 +++\n9 what\n";

const REPLAY: &str =
    "{\"word\":\"replay\",\"architecture\":\"x86-64\",\"denies\":true,\"rows\":[{\"times\":2,\"number\":110,\"name\":\"getppid\",\
    \"args\":[],\"performed\":false,\"verdict\":{\"value\":327681,\"action\":\"errno\",\"data\":1,\"text\":\"errno/1 EPERM\"},\
    \"undecided_by\":null,\"logged\":null,\"text\":\"getppid()\"},{\"times\":1,\"number\":0,\"name\":\"read\",\"args\":[\"0x3\",\"0x0\",\"0x10\"],\"performed\":true,\
    \"verdict\":{\"value\":2147418112,\"action\":\"allow\",\"data\":0,\"text\":\"allow\"},\"undecided_by\":null,\"logged\":null,\"text\":\"read(0x3, 0, 0x10)\"}],\
    \"no_calls\":1,\"not_understood\":1}\n";

const WHY: &str =
    "{\"word\":\"why\",\"architecture\":\"x86-64\",\"call\":{\"number\":39,\"name\":\"getpid\",\"args\":[\"0x0\",\"0x0\",\"0x0\",\
    \"0x0\",\"0x0\",\"0x0\"],\"ip\":\"0x0\",\"record\":\"270000003e0000c00000000000000000000000000000000000000000000000000000000000000000000000000000000000000000000000000000000000000000\",\
    \"text\":\"syscall(SYS_getpid, 0x0, 0x0, 0x0, 0x0, 0x0, 0x0)\"},\"filters\":[{\"filter\":0,\"steps\":[{\"instruction\":0,\
    \"text\":\"ldabs 0\",\"code\":32,\"jt\":0,\"jf\":0,\"k\":0,\"a\":39,\"x\":0,\"next\":1},{\"instruction\":1,\
    \"text\":\"jeq 110 +0 +1\",\"code\":21,\"jt\":0,\"jf\":1,\"k\":110,\"a\":39,\"x\":0,\"next\":3},{\"instruction\":3,\
    \"text\":\"ret 0x7fff0000\",\"code\":6,\"jt\":0,\"jf\":0,\"k\":2147418112,\"a\":39,\"x\":0,\"next\":null}],\
    \"verdict\":{\"value\":2147418112,\"action\":\"allow\",\"data\":0,\"text\":\"allow\"}}],\
    \"verdict\":{\"value\":2147418112,\"action\":\"allow\",\"data\":0,\"text\":\"allow\"},\"source\":{\"filter\":0,\"instruction\":3},\
    \"entries\":[{\"file\":\"a\\\"b\",\"kind\":\"profile\",\"by\":\"entry\",\"entry\":2,\"line\":17},\
    {\"file\":\"c\",\"kind\":\"policy\",\"by\":\"others\",\"entry\":null,\"line\":null}],\"logged\":null}\n";

/// What is told of two files that the filter may stand for.
const DECISIONS: &[Decision<'static>] = &[
    Decision {
        file: "a\"b",
        decider: Decider::Entry(2, Some(17)),
    },
    Decision {
        file: "c",
        decider: Decider::Others(None),
    },
];

/// The chain of that filter.
fn chain(alloc: Global) -> Result<Chain, Fail> {
    let program = match check(assemble(alloc, FILTER)?) {
        Ok(checked) => checked,
        Err((_, fault)) => return Err(Fail::from(fault)),
    };
    match Chain::empty(alloc).attach(program) {
        Ok(chain) => Ok(chain),
        Err((_, _, fault)) => Err(Fail::from(fault)),
    }
}

#[test]
fn calls_of_a_log(rt: HostRuntime) -> Result<(), Fail> {
    let alloc = rt.alloc();
    let chain = chain(alloc)?;
    let replay = replay(alloc, Architecture::X86_64, LOG, &chain)?;
    let text = replay_document(alloc, Architecture::X86_64, &replay)?;
    assert_eq!(rt; str::from_utf8(&text)?, REPLAY);
    Ok(())
}

#[test]
fn path_of_a_call(rt: HostRuntime) -> Result<(), Fail> {
    let alloc = rt.alloc();
    let chain = chain(alloc)?;
    let call = Record::native(39, 0, [0; 6]);
    let text = why_document(alloc, Architecture::X86_64, &chain, &call, DECISIONS, None)?;
    assert_eq!(rt; str::from_utf8(&text)?, WHY);
    Ok(())
}
