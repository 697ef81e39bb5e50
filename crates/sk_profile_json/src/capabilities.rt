//! Capabilities by their names.
ghost use Rattle.std.specs.Prelude.{◌≡◌, ◌<◌, take, drop, length, position, IfSome};
ghost use Rattle.std.specs.Option.{option_map};
ghost use Rattle.sk_profile_json.specs.Capabilities.{capability, names_of, all_names, docker_names, one_of, is_named, is_same};

/// The capabilities of Linux, in the order of their numbers: linux/capability.h.
pub const ALL: [&str; 41] = [
    "CAP_CHOWN",
    "CAP_DAC_OVERRIDE",
    "CAP_DAC_READ_SEARCH",
    "CAP_FOWNER",
    "CAP_FSETID",
    "CAP_KILL",
    "CAP_SETGID",
    "CAP_SETUID",
    "CAP_SETPCAP",
    "CAP_LINUX_IMMUTABLE",
    "CAP_NET_BIND_SERVICE",
    "CAP_NET_BROADCAST",
    "CAP_NET_ADMIN",
    "CAP_NET_RAW",
    "CAP_IPC_LOCK",
    "CAP_IPC_OWNER",
    "CAP_SYS_MODULE",
    "CAP_SYS_RAWIO",
    "CAP_SYS_CHROOT",
    "CAP_SYS_PTRACE",
    "CAP_SYS_PACCT",
    "CAP_SYS_ADMIN",
    "CAP_SYS_BOOT",
    "CAP_SYS_NICE",
    "CAP_SYS_RESOURCE",
    "CAP_SYS_TIME",
    "CAP_SYS_TTY_CONFIG",
    "CAP_MKNOD",
    "CAP_LEASE",
    "CAP_AUDIT_WRITE",
    "CAP_AUDIT_CONTROL",
    "CAP_SETFCAP",
    "CAP_MAC_OVERRIDE",
    "CAP_MAC_ADMIN",
    "CAP_SYSLOG",
    "CAP_WAKE_ALARM",
    "CAP_BLOCK_SUSPEND",
    "CAP_AUDIT_READ",
    "CAP_PERFMON",
    "CAP_BPF",
    "CAP_CHECKPOINT_RESTORE",
];

/// Those that docker leaves to a container where nothing else is said: docker run's reference, "Runtime privilege and Linux
/// capabilities".
pub const DOCKER: [&str; 14] = [
    "CAP_AUDIT_WRITE",
    "CAP_CHOWN",
    "CAP_DAC_OVERRIDE",
    "CAP_FOWNER",
    "CAP_FSETID",
    "CAP_KILL",
    "CAP_MKNOD",
    "CAP_NET_BIND_SERVICE",
    "CAP_NET_RAW",
    "CAP_SETFCAP",
    "CAP_SETGID",
    "CAP_SETPCAP",
    "CAP_SETUID",
    "CAP_SYS_CHROOT",
];

/// The names that a word stands for: `docker` for those that docker leaves to a container, `all` for all of Linux's, and else
/// the capability with this name, in either case and with or without its `CAP_`, if there is one.
#[tactic(auto, unfolding(crate::specs::Capabilities::capability))]
pub fn capability(word: &[u8]) -> Option<&'static [&'static str]>
    ensures names { option_map (λ names. names_of names.now) result ≡ capability word.now }
{
    if word == b"docker".as_slice() {
        Some(docker())
    } else if word == b"all".as_slice() {
        Some(all())
    } else {
        one(word)
    }
}

fn docker() -> &'static [&'static str]
    ensures names { names_of result.now ≡ docker_names }
{
    &DOCKER
}

fn all() -> &'static [&'static str]
    ensures names { names_of result.now ≡ all_names }
{
    &ALL
}

fn one(word: &[u8]) -> Option<&'static [&'static str]>
    ensures one { option_map (λ names. names_of names.now) result ≡ one_of (position (is_named word.now) all_names) }
{
    let names = all();
    let place = place_of(names, word)?;
    Some(names_at(names, place))
}

fn names_at(names: &'static [&'static str], place: usize) -> &'static [&'static str]
    requires within { place < length names.now }
    ensures one { names_of result.now ≡ take 1 (drop place (names_of names.now)) }
{
    &names[place..place + 1]
}

fn place_of(names: &[&'static str], word: &[u8]) -> Option<usize>
    ensures place { result ≡ position (is_named word.now) (names_of names.now) }
    ensures within { IfSome result (λ place. place < length names.now) }
{
    place_in(names, word)
}

fn place_in(names: &[&'static str], word: &[u8]) -> Option<usize>
    ensures place { result ≡ position (λ name. is_named word.now name.now) names.now }
    ensures within { IfSome result (λ place. place < length names.now) }
{
    names
        .iter()
        .position(|name| is_named(word, name.as_bytes()))
}

fn is_named(word: &[u8], name: &[u8]) -> bool
    ensures named { result ≡ is_named word.now name.now }
{
    is_same(word, name) || is_same(word, rest_of(name))
}

fn rest_of(name: &[u8]) -> &[u8]
    ensures rest { result.now ≡ drop 4 name.now }
{
    if name.len() < 4 { &[] } else { &name[4..] }
}

fn is_same(one: &[u8], other: &[u8]) -> bool
    ensures same { result ≡ is_same one.now other.now }
{
    one.eq_ignore_ascii_case(other)
}
