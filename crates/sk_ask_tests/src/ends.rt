//! Files and writers in memory.
ghost use Rattle.std.specs.Prelude.{◌≡◌, IfErr, IfOk, vec_len};
ghost use Rattle.sk_ask.specs.Shelves.{unknown};

use sk_ask::{Shelf, Trees, Unopened, Unread, command};
use sk_text::Counted;
use std::alloc::{AllocError, Global};
use std::io;
use std::io::{ErrorKind, Write};

/// getpid has errno 1, in digits.
pub const GETPID: &[u8] = b"200000000000000015000001270000000600000001000500060000000000ff7f\n";

/// Everything is allowed, as raw bytes.
pub const ALL: &[u8] = &[6, 0, 0, 0, 0, 0, 0xff, 0x7f];

/// The files that each row may name, beside `mib_and_one`, which has a byte more than a mebibyte. A read of `fails` fails.
const FILES: &[(&str, &[u8])] = &[
    ("getpid", GETPID),
    ("all", ALL),
    (
        "two",
        b"; two\nfilter 060000000000ff7f\r\nfilter 060000000000ff7f\n",
    ),
    (
        "flag",
        b"200000001000000045000001010000000600000026000500060000000000ff7f",
    ),
    ("argument", b"20000000100000001600000000000000"),
    (
        "copied",
        b"2000000010000000070000000000000087000000000000001600000000000000",
    ),
    (
        "guarded",
        b"2000000004000000150001003e0000c00600000000000080200000000000000015000001270000000600000001000500060000000000ff7f",
    ),
    // aarch64's calls come to 5, x86-64's to 7, and both to 8.
    (
        "of_two",
        b"200000000400000015000200b70000c0150003003e0000c00600000000000080200000000000000015000202dd0000002000000000000000150000003b000000150000003f000000060000000000ff7f",
    ),
    // getpid of s390x has errno 1, with the highest byte first.
    (
        "turned",
        b"\x00\x20\x00\x00\x00\x00\x00\x00\x00\x15\x00\x01\x00\x00\x00\x14\x00\x06\x00\x00\x00\x05\x00\x01\x00\x06\x00\x00\x7f\xff\x00\x00",
    ),
    (
        "each",
        b"2000000008000000200000000c000000200000001000000020000000140000002000000018000000200000001c000000200000002000000020000000240000002000000028000000200000002c000000200000003000000020000000340000002000000038000000200000003c000000060000000000ff7f",
    ),
    (
        "log",
        b"7 read(0x3, 0x7ffd, 0x40) = 0x40\n7 getpid() = 0x7\n7 read(0x3, 0x7ffd, 0x40) = 0x3\n7 +++ exited with 0 +++\n",
    ),
    ("cut", b"7 getpid() = 0x7\n7 read(0x3, 0x7f\n"),
    // 7 attaches a filter, 6 has none, and 8 comes later.
    (
        "attached",
        b"6 getuid() = 0\n7 read(0x3, 0x7ffd, 0x40) = 0x40\n7 seccomp(SECCOMP_SET_MODE_FILTER, 0, NULL) = -1 EFAULT (Bad address)\n7 getgid() = 0\n7 seccomp(SECCOMP_SET_MODE_FILTER, 0, {len=1, filter=0x7ffd}) = 0\n7 getpid() = 0x7\n6 getuid() = 0\n8 close(3) = 0\n",
    ),
    (
        "opened",
        b"7 openat(AT_FDCWD, \"a\", O_RDONLY|O_CLOEXEC) = 3\n7 openat(AT_FDCWD, \"b\", O_WRONLY|O_CREAT, 0644) = 3\n7 socket(AF_UNIX, SOCK_STREAM, 0) = 4\n7 getpid() = 7\n",
    ),
    ("unmapped", b"7 munmap(0x7f0000001000, 4096) = 0\n"),
    (
        "logged",
        b"type=1326 audit(1.2:3): pid=7 comm=\"a\" sig=0 arch=c000003e syscall=257 compat=0 ip=0x7f code=0x7ffc0000\n",
    ),
    ("empty", b""),
    ("wanted", b"read: performed\n"),
    (
        "rows",
        b"default allow\nothers errno/38\n\nread\n  errno/1 where args[0] == 3\n  allow else\ngettid, getpid,\n  getppid: errno/1\n",
    ),
    (
        "sixteen",
        b"filter 060000000000ff7f\nfilter 060000000000ff7f\nfilter 060000000000ff7f\nfilter 060000000000ff7f\nfilter 060000000000ff7f\nfilter 060000000000ff7f\nfilter 060000000000ff7f\nfilter 060000000000ff7f\nfilter 060000000000ff7f\nfilter 060000000000ff7f\nfilter 060000000000ff7f\nfilter 060000000000ff7f\nfilter 060000000000ff7f\nfilter 060000000000ff7f\nfilter 060000000000ff7f\nfilter 060000000000ff7f",
    ),
    (
        "kernels",
        b"{\"defaultAction\": \"SCMP_ACT_ALLOW\", \"syscalls\": [
            {\"names\": [\"read\"], \"action\": \"SCMP_ACT_ERRNO\", \"includes\": {\"minKernel\": \"6.12\"}},
            {\"names\": [\"write\"], \"action\": \"SCMP_ACT_ERRNO\", \"includes\": {\"minKernel\": \"6.13\"}}]}",
    ),
    ("words", b"; one\nhello\n"),
    ("code", b"# two\nfilter 2100000000000000060000000000ff7f"),
    (
        "profile",
        b" {\"defaultAction\": \"SCMP_ACT_ERRNO\", \"defaultErrnoRet\": 38, \"syscalls\": [
            {\"names\": [\"getpid\"], \"action\": \"SCMP_ACT_ALLOW\"},
            {\"names\": [\"read\"], \"action\": \"SCMP_ACT_ALLOW\", \"includes\": {\"caps\": [\"CAP_SYS_ADMIN\", \"CAP_KILL\"]}},
            {\"names\": [\"ptrace\"], \"action\": \"SCMP_ACT_ALLOW\", \"includes\": {\"minKernel\": \"4.8\"}},
            {\"names\": [\"mseal\"], \"action\": \"SCMP_ACT_ALLOW\", \"excludes\": {\"minKernel\": \"6.13\"}}]}",
    ),
    ("allowing", b"{\"defaultAction\": \"SCMP_ACT_ALLOW\"}"),
    (
        "listed",
        b"{\"defaultAction\": \"SCMP_ACT_ERRNO\", \"architectures\": [\"SCMP_ARCH_X86_64\"], \"syscalls\": [{\"names\": [\"getpid\"], \"action\": \"SCMP_ACT_ALLOW\"}]}",
    ),
    (
        "several",
        b"{\"defaultAction\": \"SCMP_ACT_ERRNO\", \"syscalls\": [{\"names\": [\"getpid\"], \"action\": \"SCMP_ACT_ALLOW\"}], \"archMap\": [
            {\"architecture\": \"SCMP_ARCH_X86_64\", \"subArchitectures\": [\"SCMP_ARCH_X86\"]},
            {\"architecture\": \"SCMP_ARCH_AARCH64\", \"subArchitectures\": [\"SCMP_ARCH_ARM\"]}]}",
    ),
    (
        "noted",
        b"{\"defaultAction\": \"SCMP_ACT_ALLOW\", \"syscalls\": [{\"names\": [\"opennat\"], \"action\": \"SCMP_ACT_LOG\"}]}",
    ),
    // socket(16, .., 9) has errno 22, by comparisons of all 64 bits.
    (
        "wide",
        b"20000000000000001500000929000000200000001400000015000007000000002000000010000000150000051000000020000000240000001500000300000000200000002000000015000001090000000600000016000500060000000000ff7f",
    ),
    // The same by the lower 32 alone.
    (
        "narrow",
        b"2000000000000000150000052900000020000000100000001500000310000000200000002000000015000001090000000600000016000500060000000000ff7f",
    ),
    // socket(2, ..) is allowed, and all else of socket(2) has errno 1, by a comparison of all 64 bits.
    (
        "allowed",
        b"2000000000000000150000052900000020000000140000001500000200000000200000001000000015000100020000000600000001000500060000000000ff7f",
    ),
    (
        "rule",
        b"{\"defaultAction\": \"SCMP_ACT_ALLOW\", \"syscalls\": [
            {\"names\": [\"getpid\"], \"action\": \"SCMP_ACT_LOG\"},
            {\"names\": [\"socket\"], \"action\": \"SCMP_ACT_ERRNO\", \"errnoRet\": 22, \"args\": [
                {\"index\": 0, \"value\": 16, \"op\": \"SCMP_CMP_EQ\"}, {\"index\": 2, \"value\": 9, \"op\": \"SCMP_CMP_EQ\"}]}]}",
    ),
    // getpid as tcpdump -dd and -ddd write filters.
    (
        "array",
        b"{ 0x20, 0, 0, 0x00000000 },\n{ 0x15, 0, 1, 0x00000027 },\n{ 0x6, 0, 0, 0x00050001 },\n{ 0x6, 0, 0, 0x7fff0000 },\n",
    ),
    (
        "decimals",
        b"4\n32 0 0 0\n21 0 1 39\n6 0 0 327681\n6 0 0 2147418112\n",
    ),
    // The profile `listed` in a container's configuration.
    (
        "configuration",
        b"{\"ociVersion\": \"1.0.2\", \"linux\": {\"namespaces\": [], \"seccomp\": {\"defaultAction\": \"SCMP_ACT_ERRNO\", \"architectures\": [\"SCMP_ARCH_X86_64\"], \"syscalls\": [{\"names\": [\"getpid\"], \"action\": \"SCMP_ACT_ALLOW\"}]}}}",
    ),
    ("program", b"\x7fELF\x02\x01\x01\x00"),
    ("object", b"{}"),
    ("open", b"\r\n\t{"),
    (
        "keys",
        b"{\"defaultAction\": \"SCMP_ACT_ALLOW\", \"defaultAction\": \"SCMP_ACT_ALLOW\"}",
    ),
    ("bytes", b"{\"defaultAction\": \"\xff\"}"),
    (
        "marked",
        b"\xef\xbb\xbf{\"defaultAction\": \"SCMP_ACT_ALLOW\"}",
    ),
    (
        "clash",
        b"{\"defaultAction\": \"SCMP_ACT_ALLOW\", \"syscalls\": [
            {\"names\": [\"read\"], \"action\": \"SCMP_ACT_LOG\"},
            {\"names\": [\"write\"], \"action\": \"SCMP_ACT_LOG\", \"args\": [{\"index\": 0, \"value\": 1, \"op\": \"SCMP_CMP_EQ\"}]},
            {\"names\": [\"write\"], \"action\": \"SCMP_ACT_KILL\", \"args\": [{\"index\": 1, \"value\": 2, \"op\": \"SCMP_CMP_EQ\"}]}]}",
    ),
];

// So many spaces.
fn blanks(alloc: Global, count: usize) -> Result<Vec<u8>, Unread>
    ensures each { IfOk result (λ bytes. vec_len bytes ≡ count) }
    ensures memory { IfErr result (λ why. why ≡ Unread.Memory) }
{
    let mut bytes = Vec::new(alloc);
    match bytes.resize(count, b' ') {
        Ok(()) => Ok(bytes),
        Err(AllocError) => Err(Unread::Memory),
    }
}

/// A shelf with these files.
pub struct Files;

impl Shelf for Files {
    ghost held = { λ _ _. unknown };

    fn take(
        &self,
        alloc: Global,
        reads: &mut u64,
        name: &str,
        most: usize,
    ) -> Result<Vec<u8>, Unread> {
        for (known, bytes) in FILES {
            if known.as_bytes() == name.as_bytes() {
                return match bytes[..bytes.len().min(most)].to_vec(alloc) {
                    Ok(bytes) => Ok(bytes),
                    Err(AllocError) => Err(Unread::Memory),
                };
            }
        }
        if name.as_bytes() == b"mib_and_one".as_slice() {
            return blanks(alloc, most.min(1_048_577));
        }
        if name.as_bytes() == b"fails".as_slice() {
            *reads = reads.saturating_add(1);
            return Err(Unread::Reading);
        }
        Err(Unread::Unopened(Unopened::Missing))
    }
}

/// Keeps the bytes that it takes; the first so many writes fail.
#[derive(Drop)]
pub struct Output {
    pub held: Vec<u8>,
    pub failing: u64,
}

impl Write for Output {
    fn write(&mut self, bytes: &[u8]) -> io::Result<usize> {
        if self.failing > 0 {
            self.failing -= 1;
            return Err(io::Error::from(ErrorKind::StorageFull));
        }
        self.held.extend_from_slice(bytes)?;
        Ok(bytes.len())
    }

    fn flush(&mut self) -> io::Result<()> {
        Ok(())
    }
}

/// What the program came to: its status, what it wrote, and how many reads failed.
#[derive(Drop)]
pub struct Ran {
    pub status: u8,
    pub out: Vec<u8>,
    pub complaints: Vec<u8>,
    pub reads: u64,
}

// The words of a text, between its spaces.
fn words(alloc: Global, text: &str) -> Result<Vec<String>, AllocError> {
    let mut words = Vec::new(alloc);
    for word in text.split(' ').filter(|word| word.len() > 0) {
        words.push(String::from_str(alloc, word)?)?;
    }
    Ok(words)
}

/// A run with the words of this text, of which the first so many writes of answers fail.
pub fn run(alloc: Global, given: &str, failing: u64) -> Result<Ran, AllocError> {
    run_words(alloc, &words(alloc, given)?, failing)
}

/// A run with these words.
pub fn run_words(alloc: Global, words: &[String], failing: u64) -> Result<Ran, AllocError> {
    let mut out = Counted::new(Output {
        held: Vec::new(alloc),
        failing,
    });
    let mut complaints = Counted::new(Output {
        held: Vec::new(alloc),
        failing: 0,
    });
    let mut reads = 0;
    let status = command(
        alloc,
        words,
        &Files,
        &Trees,
        &mut reads,
        &mut out,
        &mut complaints,
    );
    Ok(Ran {
        status,
        out: out.into_inner().held,
        complaints: complaints.into_inner().held,
        reads,
    })
}
