//! The process that makes a call.

ghost use Rattle.std.specs.Prelude.{◌≡◌, IsTrue, IfSome};
ghost use Rattle.std.specs.Option.{is_some};
ghost use Rattle.sk_world.specs.World.{at};

use sk_world::{Proc, ProcStore};

/// The process of this pid, which is there.
pub(crate) fn caller<S: ProcStore>(store: &S, pid: u32) -> &Proc
    requires { IsTrue (is_some (at (S.contents store.now) pid)) }
    ensures { IfSome (at (S.contents store.now) pid) (λ p. p ≡ result.now) }
{
    match store.get(pid) {
        Some(process) => process,
        None => unreachable!(),
    }
}
