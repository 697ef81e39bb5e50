//! What people give for a filter and is none.
ghost use Rattle.std.specs.Prelude.{◌≡◌};
ghost use Rattle.std.specs.Option.{option_map};
ghost use Rattle.sk_ask.specs.Kinds.{is_elf, is_gzip, is_minijail, is_pseudo_code, is_unit, is_utf16, is_yaml, kind_of};

/// What is said of a file with these bytes that is no filter, by how it begins.
pub(crate) fn kind_of(bytes: &[u8]) -> Option<&'static str>
    ensures kind { option_map (λ text. text.now) result ≡ kind_of bytes.now }
{
    if is_elf(bytes) {
        Some("is an ELF file: expected a filter, as bytes of struct sock_filter or as a text")
    } else if is_gzip(bytes) {
        Some("is compressed: expected what gunzip makes of it")
    } else if is_utf16(bytes) {
        Some("is a text in UTF-16: expected UTF-8")
    } else if is_pseudo_code(bytes) {
        Some("is pseudo code of libseccomp: expected what seccomp_export_bpf(3) writes")
    } else if is_yaml(bytes) {
        Some("is YAML: expected JSON, as yq -o json writes it")
    } else if is_unit(bytes) {
        Some("is a unit of systemd: expected a filter, a policy or a profile")
    } else if is_minijail(bytes) {
        Some(
            "is a policy of minijail: expected a filter, as minijail's compile_seccomp_policy.py writes it",
        )
    } else {
        None
    }
}

fn is_elf(bytes: &[u8]) -> bool
    ensures elf { result ≡ is_elf bytes.now }
{
    bytes.starts_with(b"\x7fELF")
}

fn is_gzip(bytes: &[u8]) -> bool
    ensures gzip { result ≡ is_gzip bytes.now }
{
    bytes.starts_with(&[0x1f, 0x8b])
}

fn is_utf16(bytes: &[u8]) -> bool
    ensures utf16 { result ≡ is_utf16 bytes.now }
{
    bytes.starts_with(&[0xff, 0xfe]) || bytes.starts_with(&[0xfe, 0xff])
}

fn is_pseudo_code(bytes: &[u8]) -> bool
    ensures code { result ≡ is_pseudo_code bytes.now }
{
    bytes.starts_with(b"#\n# pseudo filter code start\n#\n# filter for arch ")
}

fn is_yaml(bytes: &[u8]) -> bool
    ensures yaml { result ≡ is_yaml bytes.now }
{
    bytes.starts_with(b"---\n")
        || bytes.starts_with(b"apiVersion:")
        || bytes.starts_with(b"defaultAction:")
}

fn is_minijail(bytes: &[u8]) -> bool
    ensures minijail { result ≡ is_minijail bytes.now }
{
    bytes.starts_with(b"@include ")
        || bytes.starts_with(b"@default ")
        || bytes.starts_with(b"@frequency ")
        || bytes.starts_with(b"@denylist")
}

fn is_unit(bytes: &[u8]) -> bool
    ensures unit { result ≡ is_unit bytes.now }
{
    bytes.starts_with(b"[Unit]") || bytes.starts_with(b"[Service]")
}
