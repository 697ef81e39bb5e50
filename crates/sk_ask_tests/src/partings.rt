//! Entries of profiles that part two calls which Linux takes for one, and what is said of each: podman's rules for sockets.
use sk_insn::Record;
use sk_profile_json::{Context, Kernel, Machine, partings, profile_of_bytes, push_parting};
use std::alloc::{AllocError, Global};
use std::test::Fail;

/// Where the profile is to hold.
const CONTEXT: Context<'_> = Context {
    capabilities: &[],
    kernel: Kernel {
        major: 6,
        minor: 12,
    },
    runc: false,
    machine: Some(Machine::X86_64),
    native: false,
};

/// Netlink sockets for audit are refused: seccomp.json of containers-common 0.50.1, without what else it has.
const PROFILE: &str = "{\"defaultAction\": \"SCMP_ACT_ERRNO\", \"syscalls\": [
{\"names\": [\"bind\"], \"action\": \"SCMP_ACT_ALLOW\"},
{\"names\": [\"socket\"], \"action\": \"SCMP_ACT_ERRNO\", \"errnoRet\": 22, \"args\": [
{\"index\": 0, \"value\": 16, \"op\": \"SCMP_CMP_EQ\"}, {\"index\": 2, \"value\": 9, \"op\": \"SCMP_CMP_EQ\"}]},
{\"names\": [\"socket\"], \"action\": \"SCMP_ACT_ALLOW\", \"args\": [{\"index\": 0, \"value\": 16, \"op\": \"SCMP_CMP_NE\"}]}]}";

/// What is said of a socket of AF_NETLINK for NETLINK_AUDIT whose family has a bit that Linux does not read.
const SAID: &str =
    "entry 2 of syscalls: SCMP_CMP_EQ compares more of args[0] than Linux reads; compare the lower 32 by \"op\": \"SCMP_CMP_MASKED_EQ\", \"value\": 4294967295, \"valueTwo\": 16
entry 3 of syscalls: SCMP_CMP_NE compares more of args[0] than Linux reads; compare the lower 32 with each value in an entry of its own, by \"op\": \"SCMP_CMP_MASKED_EQ\", \"value\": 4294967295; where the default refuses, SCMP_CMP_LT with 16 does for those below
";

#[test]
fn sockets_for_audit(rt: HostRuntime) -> Result<(), Fail> {
    let alloc = rt.alloc();
    let asked = Record::native(41, 0, [16, 3, 9, 0, 0, 0]);
    let wide = Record::native(41, 0, [0x1_0000_0010, 3, 9, 0, 0, 0]);
    let lines = said(alloc, &asked, &wide)?;
    let same = said(alloc, &asked, &asked)?;
    assert_eq!(rt; (lines.as_str(), same.as_str()), (SAID, ""));
    Ok(())
}

// A line of each entry that parts the calls.
fn said(alloc: Global, one: &Record, other: &Record) -> Result<String, AllocError> {
    let mut text = String::new(alloc);
    if let Some(profile) = profile_of_bytes(alloc, &CONTEXT, PROFILE.as_bytes())? {
        for it in &partings(alloc, &profile, one, other)? {
            push_parting(&mut text, it)?;
            text.push_str("\n")?;
        }
    }
    Ok(text)
}
