//! Laws on ids, on the rules of the world, and on the options of wait4(2). No program calls these functions: the contract of
//! each is the law.
ghost use Rattle.std.specs.Prelude.{◌≡◌, ◌-◌, ◌^◌};
ghost use Rattle.sk_world.specs.declared.creds.TheConstants.{NO_ID};
ghost use Rattle.sk_world.specs.laws.WorkedIds.{WorkedSetuid, WorkedSetresuid, WorkedExec, WorkedPermission, WorkedErrors};
ghost use Rattle.sk_world.specs.declared.process.TheConstants.{INIT, LAST_PID, PROCESSES};
ghost use Rattle.sk_world.specs.declared.request.TheConstants.WaitOptions.{WNOHANG, WUNTRACED, WCONTINUED};
ghost use Rattle.sk_world.specs.Waits.{options_of};
ghost use Rattle.sk_world.specs.laws.WaitLaws.{AsksWithItsBits};
ghost use Rattle.sk_world.specs.laws.WorldLaws.{OpeningHasRules, ChangeKeepsRules, LinksKeepRules, RemovalKeepsRules, SignalKeepsRules, ForceKeepsRules, ForkKeepsRules, ReparentKeepsRules, EndKeepsRules, ToldKeepsRules};

/// The id that names no user is -1 as a `uid_t` of 32 bits: setresuid(2).
pub fn no_id_is_minus_one()
    ensures number { NO_ID ≡ 2 ^ 32 - 1 }
{}

/// The definitions give what was worked out by hand.
pub fn worked_ids()
    ensures setuid { WorkedSetuid }
    ensures setresuid { WorkedSetresuid }
    ensures exec { WorkedExec }
    ensures permission { WorkedPermission }
    ensures numbers { WorkedErrors }
{}

/// The rules of the world hold as the system starts, and each change of the world keeps them.
pub fn rules_are_kept()
    ensures opening { OpeningHasRules }
    ensures change { ChangeKeepsRules }
    ensures links { LinksKeepRules }
    ensures removal { RemovalKeepsRules }
    ensures signal { SignalKeepsRules }
    ensures force { ForceKeepsRules }
    ensures fork { ForkKeepsRules }
    ensures reparent { ReparentKeepsRules }
    ensures end { EndKeepsRules }
    ensures told { ToldKeepsRules }
{}

/// Process 1 is the first, pids go to 32767, the `pid_max` that Linux starts with, and there are 1024 processes at most.
pub fn limits_are_these()
    ensures init { INIT ≡ 1 }
    ensures last_pid { LAST_PID ≡ 32767 }
    ensures processes { PROCESSES ≡ 1024 }
{}

/// WNOHANG is bit 0 of a wait4(2)'s options, WUNTRACED bit 1 and WCONTINUED bit 3, and each stands for itself alone.
pub fn wait_options_have_their_bits()
    ensures no_hang { WNOHANG ≡ options_of 1 }
    ensures untraced { WUNTRACED ≡ options_of 2 }
    ensures continued { WCONTINUED ≡ options_of 8 }
    ensures asked { AsksWithItsBits }
{}
