//! What profiles are made into, and what is told beside.
use sk_insn::read_insns;
use sk_profile_json::{Context, Kernel, Machine, is_profile, made};
use std::alloc::{AllocError, Global};
use std::test::Fail;

/// A file, and whether it is a profile.
const PROFILES: &[(&[u8], bool)] = &[
    (b"{}", true),
    (b" \t\r\n{", true),
    (b"{\"defaultAction\": 1}\n", true),
    (b"", false),
    (b"  ", false),
    (b"[{}]", false),
    (b"filter 00", false),
    (b"{\0", false),
    (b"\xef\xbb\xbf{}", false),
];

#[test]
fn profiles(rt: HostRuntime) {
    for (file, known) in PROFILES {
        assert_eq!(rt; is_profile(file), *known);
    }
}

/// A profile, and what is told of it, each note in a line.
const NOTES: &[(&[u8], &str)] = &[
    (b"{\"defaultAction\": \"SCMP_ACT_ALLOW\"}", ""),
    (
        b"{\"defaultAction\": \"SCMP_ACT_ALLOW\", \"architectures\": [\"SCMP_ARCH_X86_64\"]}",
        "",
    ),
    (
        b"{\"defaultAction\": \"SCMP_ACT_ALLOW\", \"architectures\": [\"SCMP_ARCH_X86_64\", \"SCMP_ARCH_X86\"]}",
        "",
    ),
    (
        b"{\"defaultAction\": \"SCMP_ACT_ALLOW\", \"archMap\": [{\"architecture\": \"SCMP_ARCH_X86_64\"}, {\"architecture\": \"SCMP_ARCH_ARM\"}]}",
        "",
    ),
    (
        b"{\"defaultAction\": \"SCMP_ACT_ALLOW\", \"archMap\": [{\"architecture\": \"SCMP_ARCH_X86_64\", \"subArchitectures\": [\"SCMP_ARCH_X32\"]}]}",
        "",
    ),
    (
        b"{\"defaultAction\": \"SCMP_ACT_ERRNO\", \"syscalls\": [{\"names\": [\"chown32\", \"read\"], \"action\": \"SCMP_ACT_ALLOW\"}]}",
        "",
    ),
    (
        b"{\"defaultAction\": \"SCMP_ACT_ERRNO\", \"syscalls\": [{\"names\": [\"read\"], \"action\": \"SCMP_ACT_ALLOW\"}, {\"names\": [\"open\", \"opennat\", \"a\\nb\"], \"action\": \"SCMP_ACT_ALLOW\"}]}",
        "entry 2 of syscalls: no call is named opennat: passed over\nentry 2 of syscalls: no call is named a?b: passed over\n",
    ),
    (
        b"{\"defaultAction\": \"SCMP_ACT_ERRNO\", \"syscalls\": [{\"names\": [\"opennat\"], \"action\": \"SCMP_ACT_ALLOW\", \"includes\": {\"caps\": [\"CAP_BPF\"]}}, {\"name\": \"reed\", \"action\": \"SCMP_ACT_ALLOW\"}]}",
        "entry 2 of syscalls: no call is named reed: passed over\n",
    ),
];

/// A profile, the machine whose own architecture is to stand alone, and what is told of that.
const ALONE: &[(&[u8], Machine, &str)] = &[
    (
        b"{\"defaultAction\": \"SCMP_ACT_ALLOW\"}",
        Machine::X86_64,
        "",
    ),
    (
        b"{\"defaultAction\": \"SCMP_ACT_ALLOW\", \"architectures\": [\"SCMP_ARCH_X86_64\", \"SCMP_ARCH_ARM\"]}",
        Machine::X86_64,
        "",
    ),
    (
        b"{\"defaultAction\": \"SCMP_ACT_ALLOW\", \"architectures\": [\"SCMP_ARCH_X86_64\", \"SCMP_ARCH_X86\"]}",
        Machine::X86_64,
        "x86-64's part alone: programs of its other architectures are killed\n",
    ),
    (
        b"{\"defaultAction\": \"SCMP_ACT_ALLOW\", \"archMap\": [{\"architecture\": \"SCMP_ARCH_X86_64\", \"subArchitectures\": [\"SCMP_ARCH_X32\"]}]}",
        Machine::X86_64,
        "x86-64's part alone: programs of its other architectures are killed\n",
    ),
    (
        b"{\"defaultAction\": \"SCMP_ACT_ALLOW\", \"archMap\": [{\"architecture\": \"SCMP_ARCH_X86_64\", \"subArchitectures\": [\"SCMP_ARCH_X32\"]}]}",
        Machine::Aarch64,
        "",
    ),
    (
        b"{\"defaultAction\": \"SCMP_ACT_ALLOW\", \"architectures\": [\"SCMP_ARCH_ARM\", \"SCMP_ARCH_AARCH64\"]}",
        Machine::Aarch64,
        "aarch64's part alone: programs of its other architectures are killed\n",
    ),
];

fn told(alloc: Global, machine: Machine, native: bool, file: &[u8]) -> Result<String, AllocError> {
    let context = Context {
        capabilities: &[],
        kernel: Kernel {
            major: 6,
            minor: 12,
        },
        runc: false,
        machine: Some(machine),
        native,
    };
    let mut told = String::new(alloc);
    match made(alloc, &context, file)? {
        Err(_) => told.push_str("refused")?,
        Ok(made) => {
            if read_insns(alloc, &made.image).is_err() {
                told.push_str("no image")?;
            }
            for note in &made.notes {
                told.push_str(note.as_str())?;
                told.push_str("\n")?;
            }
        }
    }
    Ok(told)
}

#[test]
fn notes(rt: HostRuntime) -> Result<(), Fail> {
    for (file, said) in NOTES {
        let told = told(rt.alloc(), Machine::X86_64, false, file)?;
        assert_eq!(rt; told.as_str(), *said);
    }
    for (file, machine, said) in ALONE {
        let told = told(rt.alloc(), *machine, true, file)?;
        assert_eq!(rt; told.as_str(), *said);
    }
    Ok(())
}
