//! The names of the calls that Linux has on other architectures than x86-64 alone.
ghost use Rattle.std.specs.Prelude.{◌≡◌};
ghost use Rattle.std.specs.List.{list_any};
ghost use Rattle.std.specs.Str.{bytes_eq};
ghost use Rattle.sk_names.specs.Elsewhere.{is_elsewhere};

mod names;

use crate::elsewhere::names::ELSEWHERE;

/// Whether Linux has a call with this name on another architecture, and none on x86-64.
#[tactic(auto, unfolding(crate::specs::Elsewhere::is_elsewhere))]
pub fn is_elsewhere(name: &[u8]) -> bool
    ensures exact { result ≡ is_elsewhere name.now }
{
    is_any(&ELSEWHERE, name)
}

fn is_any(names: &[&'static str], wanted: &[u8]) -> bool
    ensures any { result ≡ list_any (λ name. bytes_eq name.now wanted.now) names.now }
{
    names.iter().any(|name| name.as_bytes() == wanted)
}
