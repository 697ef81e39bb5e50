//! Words of `ask` with `--json`: whole documents, as the page on formats has their keys.
use crate::ends::run;
use std::test::Fail;

/// The words, the status, and the document.
const DOCUMENTS: &[(&str, u8, &str)] = &[
    (
        "calls --json --call getpid --call read getpid",
        0,
        "{\"word\":\"calls\",\"architecture\":\"x86-64\",\"looks_at_architecture\":false,\"rows\":[{\"first\":39,\"last\":39,\"name\":\"getpid\",\"verdicts\":[{\"value\":327681,\"action\":\"errno\",\"data\":1,\"text\":\"errno/1 EPERM\"}],\"text\":\"errno/1 EPERM\",\"examples\":[]},{\"first\":0,\"last\":0,\"name\":\"read\",\"verdicts\":[{\"value\":2147418112,\"action\":\"allow\",\"data\":0,\"text\":\"allow\"}],\"text\":\"allow\",\"examples\":[]}]}\n",
    ),
    (
        "calls --examples --call 4294967295 all --json",
        0,
        "{\"word\":\"calls\",\"architecture\":\"x86-64\",\"looks_at_architecture\":false,\"rows\":[{\"first\":4294967295,\"last\":4294967295,\"name\":null,\"verdicts\":[{\"value\":2147418112,\"action\":\"allow\",\"data\":0,\"text\":\"allow\"}],\"text\":\"allow\",\"examples\":[{\"verdict\":{\"value\":2147418112,\"action\":\"allow\",\"data\":0,\"text\":\"allow\"},\"found\":{\"filter\":0,\"instruction\":0,\"call\":{\"number\":4294967295,\"name\":null,\"args\":[\"0x0\",\"0x0\",\"0x0\",\"0x0\",\"0x0\",\"0x0\"],\"ip\":\"0x0\",\"record\":\"ffffffff3e0000c00000000000000000000000000000000000000000000000000000000000000000000000000000000000000000000000000000000000000000\",\"text\":\"syscall(4294967295, 0x0, 0x0, 0x0, 0x0, 0x0, 0x0)\"}}}]}]}\n",
    ),
    (
        "when --json flag --call 0",
        0,
        "{\"word\":\"when\",\"architecture\":\"x86-64\",\"rows\":[{\"first\":0,\"last\":0,\"name\":\"read\",\"verdicts\":[{\"value\":327718,\"action\":\"errno\",\"data\":38,\"text\":\"errno/38 ENOSYS\"},{\"value\":2147418112,\"action\":\"allow\",\"data\":0,\"text\":\"allow\"}],\"lines\":[{\"verdict\":{\"value\":2147418112,\"action\":\"allow\",\"data\":0,\"text\":\"allow\"},\"choices\":[[{\"argument\":\"args[0]\",\"mask\":\"0x1\",\"from\":\"0x0\",\"to\":\"0x0\",\"inside\":true}]],\"condition\":\"(args[0] & 0x1) == 0\"}],\"otherwise\":{\"value\":327718,\"action\":\"errno\",\"data\":38,\"text\":\"errno/38 ENOSYS\"}}]}\n",
    ),
    (
        "diff getpid --json getpid --json",
        0,
        "{\"word\":\"diff\",\"architecture\":\"x86-64\",\"relation\":\"same\",\"holds\":true,\"differences\":[]}\n",
    ),
    (
        "diff --json --arch i386 all getpid",
        1,
        "{\"word\":\"diff\",\"architecture\":\"i386\",\"relation\":\"same\",\"holds\":false,\"differences\":[{\"first\":39,\"last\":39,\"name\":\"mkdir\",\"kind\":\"stricter\",\"old\":{\"value\":2147418112,\"action\":\"allow\",\"data\":0,\"text\":\"allow\"},\"new\":{\"value\":327681,\"action\":\"errno\",\"data\":1,\"text\":\"errno/1 EPERM\"},\"choices\":null,\"condition\":null,\"call\":{\"number\":39,\"name\":\"mkdir\",\"args\":[\"0x0\",\"0x0\",\"0x0\",\"0x0\",\"0x0\",\"0x0\"],\"ip\":\"0x0\",\"record\":\"27000000030000400000000000000000000000000000000000000000000000000000000000000000000000000000000000000000000000000000000000000000\",\"text\":\"syscall(SYS_mkdir, 0x0, 0x0, 0x0, 0x0, 0x0, 0x0)\"}}]}\n",
    ),
    (
        "expect --json wanted all",
        0,
        "{\"word\":\"expect\",\"architecture\":\"x86-64\",\"relation\":\"as expected\",\"holds\":true,\"differences\":[]}\n",
    ),
    (
        "lint --json narrow",
        0,
        "{\"word\":\"lint\",\"holds\":true,\"differences\":[]}\n",
    ),
    (
        "replay --json log all getpid",
        1,
        "{\"word\":\"replay\",\"architecture\":\"x86-64\",\"denies\":true,\"rows\":[{\"times\":2,\"number\":0,\"name\":\"read\",\"args\":[\"0x3\",\"0x7ffd\",\"0x40\"],\"performed\":true,\"verdict\":{\"value\":2147418112,\"action\":\"allow\",\"data\":0,\"text\":\"allow\"},\"undecided_by\":null,\"logged\":null,\"text\":\"read(0x3, 0x7ffd, 0x40)\"},{\"times\":1,\"number\":39,\"name\":\"getpid\",\"args\":[],\"performed\":false,\"verdict\":{\"value\":327681,\"action\":\"errno\",\"data\":1,\"text\":\"errno/1 EPERM\"},\"undecided_by\":null,\"logged\":null,\"text\":\"getpid()\"}],\"no_calls\":1,\"not_understood\":0}\n",
    ),
    (
        "why --json getppid() all",
        0,
        "{\"word\":\"why\",\"architecture\":\"x86-64\",\"call\":{\"number\":110,\"name\":\"getppid\",\"args\":[\"0x0\",\"0x0\",\"0x0\",\"0x0\",\"0x0\",\"0x0\"],\"ip\":\"0x0\",\"record\":\"6e0000003e0000c00000000000000000000000000000000000000000000000000000000000000000000000000000000000000000000000000000000000000000\",\"text\":\"syscall(SYS_getppid, 0x0, 0x0, 0x0, 0x0, 0x0, 0x0)\"},\"filters\":[{\"filter\":0,\"steps\":[{\"instruction\":0,\"text\":\"ret 0x7fff0000\",\"code\":6,\"jt\":0,\"jf\":0,\"k\":2147418112,\"a\":0,\"x\":0,\"next\":null}],\"verdict\":{\"value\":2147418112,\"action\":\"allow\",\"data\":0,\"text\":\"allow\"}}],\"verdict\":{\"value\":2147418112,\"action\":\"allow\",\"data\":0,\"text\":\"allow\"},\"source\":{\"filter\":0,\"instruction\":0},\"entries\":[],\"logged\":null}\n",
    ),
    (
        "arches --json all",
        0,
        "{\"word\":\"arches\",\"architectures\":[{\"name\":\"x86-64\",\"verdict\":{\"value\":2147418112,\"action\":\"allow\",\"data\":0,\"text\":\"allow\"}},{\"name\":\"x32\",\"verdict\":{\"value\":2147418112,\"action\":\"allow\",\"data\":0,\"text\":\"allow\"}},{\"name\":\"i386\",\"verdict\":{\"value\":2147418112,\"action\":\"allow\",\"data\":0,\"text\":\"allow\"}},{\"name\":\"aarch64\",\"verdict\":{\"value\":2147418112,\"action\":\"allow\",\"data\":0,\"text\":\"allow\"}},{\"name\":\"arm\",\"verdict\":{\"value\":2147418112,\"action\":\"allow\",\"data\":0,\"text\":\"allow\"}},{\"name\":\"riscv64\",\"verdict\":{\"value\":2147418112,\"action\":\"allow\",\"data\":0,\"text\":\"allow\"}},{\"name\":\"ppc64le\",\"verdict\":{\"value\":2147418112,\"action\":\"allow\",\"data\":0,\"text\":\"allow\"}},{\"name\":\"s390x\",\"verdict\":{\"value\":2147418112,\"action\":\"allow\",\"data\":0,\"text\":\"allow\"}},{\"name\":\"loongarch64\",\"verdict\":{\"value\":2147418112,\"action\":\"allow\",\"data\":0,\"text\":\"allow\"}}],\"other\":{\"followed\":true,\"verdict\":{\"value\":2147418112,\"action\":\"allow\",\"data\":0,\"text\":\"allow\"}},\"warnings\":[]}\n",
    ),
];

#[test]
fn documents_are_answers(rt: HostRuntime) -> Result<(), Fail> {
    for &(words, status, document) in DOCUMENTS {
        let document = document.as_bytes();
        let ran = run(rt.alloc(), words, 0)?;
        assert_eq!(rt;
            (ran.status, ran.out.as_slice(), ran.complaints.len()),
            (status, document, 0),
            "at {words}"
        );
    }
    Ok(())
}

// Where calls are undecided there is no document, and the lines are those of the text.
#[test]
fn undecided_is_no_document(rt: HostRuntime) -> Result<(), Fail> {
    let ran = run(rt.alloc(), "diff --json argument copied", 0)?;
    assert_eq!(rt; (ran.status, ran.out.len()), (2, 0));
    assert!(rt;
        ran.complaints.starts_with(
            b"ask: diff: the filters could not be compared on all calls:\nundecided:\n0 read: undecided\n",
        )
    );
    Ok(())
}
