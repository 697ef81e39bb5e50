//! The names of errors, by their numbers, and their numbers by their names.
ghost use Rattle.std.specs.Prelude.{◌≡◌, ◌<◌, ◌≤◌, length, map, position, slice_get, IfSome};
ghost use Rattle.std.specs.Option.{option_map};
ghost use Rattle.std.specs.Str.{bytes_eq};
ghost use Rattle.sk_filter.specs.Errors.{error_named, error_number, second_number};

/// The name of an error's number on x86-64, by errno(3), if it is one.
#[tactic(auto, unfolding(crate::specs::Errors::error_named))]
pub fn error_name(number: u32) -> Option<&'static str>
    ensures name { option_map (λ name. name.now) result ≡ error_named number }
{
    let name = name_at(&ERRORS, number as usize)?;
    if name.is_empty() { None } else { Some(name) }
}

fn name_at(names: &[&'static str], place: usize) -> Option<&'static str>
    ensures name { option_map (λ name. name.now) result ≡ slice_get (map (λ name. name.now) names.now) place }
{
    names.get(place).copied()
}

/// The number of the error with this name on x86-64, by errno(3), if there is one. Some errors have a second name.
#[tactic(auto, unfolding(crate::specs::Errors::error_number))]
pub fn error_number(name: &[u8]) -> Option<u32>
    ensures number { result ≡ error_number name.now }
    ensures bound { IfSome result (λ number. number ≤ 133) }
{
    if name.is_empty() {
        return None;
    }
    match place_of(&ERRORS, name) {
        Some(place) => Some(place as u32),
        None => second_number(name),
    }
}

fn place_of(names: &[&'static str], wanted: &[u8]) -> Option<usize>
    ensures first { result ≡ position (λ name. bytes_eq name.now wanted.now) names.now }
    ensures within { IfSome result (λ place. place < length names.now) }
{
    names.iter().position(|name| name.as_bytes() == wanted)
}

fn second_number(name: &[u8]) -> Option<u32>
    ensures number { result ≡ second_number name.now }
    ensures bound { IfSome result (λ number. number ≤ 133) }
{
    if name == "EWOULDBLOCK".as_bytes() {
        Some(11)
    } else if name == "EDEADLOCK".as_bytes() {
        Some(35)
    } else if name == "ENOTSUP".as_bytes() {
        Some(95)
    } else {
        None
    }
}

/// The names of errors 0 to 133 on x86-64, as asm-generic/errno-base.h and asm-generic/errno.h of Linux have them. An
/// empty text stands where no error has the number.
pub const ERRORS: [&str; 134] = [
    "",
    "EPERM",
    "ENOENT",
    "ESRCH",
    "EINTR",
    "EIO",
    "ENXIO",
    "E2BIG",
    "ENOEXEC",
    "EBADF",
    "ECHILD",
    "EAGAIN",
    "ENOMEM",
    "EACCES",
    "EFAULT",
    "ENOTBLK",
    "EBUSY",
    "EEXIST",
    "EXDEV",
    "ENODEV",
    "ENOTDIR",
    "EISDIR",
    "EINVAL",
    "ENFILE",
    "EMFILE",
    "ENOTTY",
    "ETXTBSY",
    "EFBIG",
    "ENOSPC",
    "ESPIPE",
    "EROFS",
    "EMLINK",
    "EPIPE",
    "EDOM",
    "ERANGE",
    "EDEADLK",
    "ENAMETOOLONG",
    "ENOLCK",
    "ENOSYS",
    "ENOTEMPTY",
    "ELOOP",
    "",
    "ENOMSG",
    "EIDRM",
    "ECHRNG",
    "EL2NSYNC",
    "EL3HLT",
    "EL3RST",
    "ELNRNG",
    "EUNATCH",
    "ENOCSI",
    "EL2HLT",
    "EBADE",
    "EBADR",
    "EXFULL",
    "ENOANO",
    "EBADRQC",
    "EBADSLT",
    "",
    "EBFONT",
    "ENOSTR",
    "ENODATA",
    "ETIME",
    "ENOSR",
    "ENONET",
    "ENOPKG",
    "EREMOTE",
    "ENOLINK",
    "EADV",
    "ESRMNT",
    "ECOMM",
    "EPROTO",
    "EMULTIHOP",
    "EDOTDOT",
    "EBADMSG",
    "EOVERFLOW",
    "ENOTUNIQ",
    "EBADFD",
    "EREMCHG",
    "ELIBACC",
    "ELIBBAD",
    "ELIBSCN",
    "ELIBMAX",
    "ELIBEXEC",
    "EILSEQ",
    "ERESTART",
    "ESTRPIPE",
    "EUSERS",
    "ENOTSOCK",
    "EDESTADDRREQ",
    "EMSGSIZE",
    "EPROTOTYPE",
    "ENOPROTOOPT",
    "EPROTONOSUPPORT",
    "ESOCKTNOSUPPORT",
    "EOPNOTSUPP",
    "EPFNOSUPPORT",
    "EAFNOSUPPORT",
    "EADDRINUSE",
    "EADDRNOTAVAIL",
    "ENETDOWN",
    "ENETUNREACH",
    "ENETRESET",
    "ECONNABORTED",
    "ECONNRESET",
    "ENOBUFS",
    "EISCONN",
    "ENOTCONN",
    "ESHUTDOWN",
    "ETOOMANYREFS",
    "ETIMEDOUT",
    "ECONNREFUSED",
    "EHOSTDOWN",
    "EHOSTUNREACH",
    "EALREADY",
    "EINPROGRESS",
    "ESTALE",
    "EUCLEAN",
    "ENOTNAM",
    "ENAVAIL",
    "EISNAM",
    "EREMOTEIO",
    "EDQUOT",
    "ENOMEDIUM",
    "EMEDIUMTYPE",
    "ECANCELED",
    "ENOKEY",
    "EKEYEXPIRED",
    "EKEYREVOKED",
    "EKEYREJECTED",
    "EOWNERDEAD",
    "ENOTRECOVERABLE",
    "ERFKILL",
    "EHWPOISON",
];
