//! Some calls by their numbers and names, on x86-64 and on others, and names of machines and of capabilities.
use sk_names::x86_64::{name, number, numbers};
use sk_names::{Architecture, is_elsewhere};
use sk_profile_json::{Machine, capability};
use std::test::Fail;

#[test]
fn names_and_numbers(rt: HostRuntime) {
    let rows: [(u32, Option<&str>); 12] = [
        (0, Some("read")),
        (39, Some("getpid")),
        (334, Some("rseq")),
        (335, Some("uretprobe")),
        (336, None),
        (423, None),
        (424, Some("pidfd_send_signal")),
        (435, Some("clone3")),
        (450, Some("set_mempolicy_home_node")),
        (462, Some("mseal")),
        (463, None),
        (u32::MAX, None),
    ];
    for (nr, known) in rows {
        assert_eq!(rt; name(nr), known);
        if let Some(known) = known {
            assert_eq!(rt; number(known.as_bytes()), Some(nr));
        }
    }
    assert_eq!(rt; (number(b"no_such_call"), number(b"")), (None, None));
}

#[test]
fn all_named_calls(rt: HostRuntime) -> Result<(), Fail> {
    let all = numbers(rt.alloc())?;
    assert_eq!(rt; all.len(), 375);
    assert!(rt; all.contains(&334) && all.contains(&424) && !all.contains(&423));
    Ok(())
}

/// An architecture, the name and the number that it has, and a call on it: linux/audit.h, and asm/unistd.h of each.
const ELSEWHERE: &[(Architecture, &str, u32, u32, &str)] = &[
    (Architecture::X86_64, "x86-64", 0xC000_003E, 59, "execve"),
    (Architecture::X32, "x32", 0xC000_003E, 0x4000_0208, "execve"),
    (Architecture::I386, "i386", 0x4000_0003, 26, "ptrace"),
    (Architecture::Aarch64, "aarch64", 0xC000_00B7, 221, "execve"),
    (Architecture::Arm, "arm", 0x4000_0028, 11, "execve"),
    (Architecture::Riscv64, "riscv64", 0xC000_00F3, 221, "execve"),
    (Architecture::Ppc64le, "ppc64le", 0xC000_0015, 11, "execve"),
    (Architecture::S390x, "s390x", 0x8000_0016, 11, "execve"),
    (
        Architecture::Loongarch64,
        "loongarch64",
        0xC000_0102,
        221,
        "execve",
    ),
];

#[test]
fn architectures(rt: HostRuntime) {
    for &(it, text, audit, nr, call) in ELSEWHERE {
        assert_eq!(rt;
            (Architecture::named(text.as_bytes()), it.text(), it.audit()),
            (Some(it), text, audit)
        );
        assert_eq!(rt;
            (
                sk_names::name(it, nr),
                sk_names::number(it, call.as_bytes())
            ),
            (Some(call), Some(nr))
        );
    }
    assert_eq!(rt;
        (
            Architecture::named(b"vax"),
            Architecture::S390x.is_big_endian(),
            Architecture::Arm.is_big_endian()
        ),
        (None, true, false)
    );
}

// x32 has bit 30 in each number, and arm calls of its own far behind the others.
#[test]
fn all_named_calls_elsewhere(rt: HostRuntime) -> Result<(), Fail> {
    let x32 = sk_names::numbers(rt.alloc(), Architecture::X32)?;
    let arm = sk_names::numbers(rt.alloc(), Architecture::Arm)?;
    let i386 = sk_names::numbers(rt.alloc(), Architecture::I386)?;
    assert_eq!(rt;
        (
            x32.first(),
            x32.last(),
            arm.last(),
            i386.first(),
            i386.last()
        ),
        (
            Some(&0x4000_0000),
            Some(&0x4000_0223),
            Some(&0x000f_0006),
            Some(&0),
            Some(&462)
        )
    );
    Ok(())
}

/// An architecture, and the machine that runs its programs.
const MACHINES: &[(Architecture, Option<Machine>)] = &[
    (Architecture::X86_64, Some(Machine::X86_64)),
    (Architecture::X32, Some(Machine::X86_64)),
    (Architecture::I386, Some(Machine::X86_64)),
    (Architecture::Aarch64, Some(Machine::Aarch64)),
    (Architecture::Arm, Some(Machine::Aarch64)),
    (Architecture::Riscv64, Some(Machine::Riscv64)),
    (Architecture::Ppc64le, Some(Machine::Ppc64le)),
    (Architecture::S390x, None),
    (Architecture::Loongarch64, Some(Machine::Loongarch64)),
];

#[test]
fn machines(rt: HostRuntime) {
    for &(architecture, machine) in MACHINES {
        assert_eq!(rt; Machine::of(architecture), machine);
    }
    for machine in Machine::ALL {
        let own = machine.own();
        assert_eq!(rt;
            (Machine::named(own.text().as_bytes()), Machine::of(own)),
            (Some(machine), Some(machine))
        );
    }
    let names: [&[u8]; 5] = [b"x32", b"arm", b"s390x", b"amd64", b""];
    for name in names {
        assert_eq!(rt; Machine::named(name), None);
    }
    assert_eq!(rt;
        Machine::Aarch64.relatives(),
        [Architecture::Arm].as_slice()
    );
}

/// A word, how many names it stands for, and the first of them.
const CAPABILITIES: &[(&[u8], usize, &str)] = &[
    (b"CAP_SYS_ADMIN", 1, "CAP_SYS_ADMIN"),
    (b"SYS_ADMIN", 1, "CAP_SYS_ADMIN"),
    (b"sys_admin", 1, "CAP_SYS_ADMIN"),
    (b"cap_sys_admin", 1, "CAP_SYS_ADMIN"),
    (b"Cap_Bpf", 1, "CAP_BPF"),
    (b"checkpoint_restore", 1, "CAP_CHECKPOINT_RESTORE"),
    (b"docker", 14, "CAP_AUDIT_WRITE"),
    (b"all", 41, "CAP_CHOWN"),
    (b"CAP_", 0, ""),
    (b"", 0, ""),
    (b"CAP_CAP_BPF", 0, ""),
    (b"Docker", 0, ""),
    (b"SYS_ADMIN ", 0, ""),
    (b"SYS", 0, ""),
];

#[test]
fn capabilities(rt: HostRuntime) {
    for (word, count, first) in CAPABILITIES {
        let names = capability(word).unwrap_or(&[]);
        let known = (names.len(), names.first().copied().unwrap_or(""));
        assert_eq!(rt; known, (*count, *first));
    }
}

/// A name, and whether another architecture alone has it.
const CALLS: &[(&[u8], bool)] = &[
    (b"chown32", true),
    (b"_llseek", true),
    (b"arm_fadvise64_64", true),
    (b"s390_pci_mmio_read", true),
    (b"riscv_hwprobe", true),
    (b"socketcall", true),
    (b"read", false),
    (b"mseal", false),
    (b"opennat", false),
    (b"", false),
];

#[test]
fn calls_elsewhere(rt: HostRuntime) {
    for (name, elsewhere) in CALLS {
        assert_eq!(rt; is_elsewhere(name), *elsewhere);
    }
}
