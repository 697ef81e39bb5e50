//! User ids under setuid(2), setresuid(2), execve(2) and kill(2), and numbers of errors: each function once. `sk_world` has more
//! of them as theorems.
use crate::deliveries::ROOT;
use sk_world::{Creds, Errno};

fn ids(real: u32, effective: u32, saved: u32) -> Creds {
    Creds {
        real,
        effective,
        saved,
        no_new_privs: false,
    }
}

// The superuser takes three ids, and does not come back to 0 but by a set-user-ID program of 0.
#[test]
fn ids_are_given_up(rt: HostRuntime) {
    let mut creds = ROOT;
    let told = creds.setresuid(1000, 1001, 1002);
    assert_eq!(rt; (told, creds), (Ok(()), ids(1000, 1001, 1002)));
    assert_eq!(rt; creds.setuid(0), Err(Errno::Eperm));
    creds.after_exec(9, false);
    assert_eq!(rt; creds, ids(1000, 1001, 1001));
    creds.after_exec(0, true);
    assert_eq!(rt; (creds, creds.is_privileged()), (ids(1000, 0, 0), true));
    let user = ids(1000, 1000, 1000);
    assert_eq!(rt; (creds.setuid(1000), creds), (Ok(()), user));
    assert_eq!(rt;
        (ROOT.may_signal(&user), user.may_signal(&ROOT)),
        (true, false)
    );
    assert_eq!(rt; Errno::Eperm.number(), 1);
}
