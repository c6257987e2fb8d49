use dd_names::{Name, ObjName};
use metadata_locks::{LockKey, Locks, Mode, Request, TryFault};
use std::alloc::{AllocError, Global};
use std::test::Fail;

const MODES: [Mode; 3] = [Mode::IX, Mode::S, Mode::X];

fn request(alloc: Global, mode: Mode) -> Result<Request, Fail> {
    let schema = Name::read(alloc, "d", false)?;
    let name = Name::read(alloc, "t", false)?;
    Ok(Request {
        key: LockKey::Object(ObjName { schema, name }),
        mode,
    })
}

/// What the second session is answered where the first has locked the same key.
fn second(alloc: Global, first: Mode, second: Mode) -> Result<Result<(), TryFault>, Fail> {
    let mut locks = Locks::new(alloc);
    locks.try_all(0, &[request(alloc, first)?])?;
    Ok(locks.try_all(1, &[request(alloc, second)?]))
}

#[test]
fn two_sessions_share_a_key_where_both_have_ix_or_both_s(rt: HostRuntime) -> Result<(), Fail> {
    for a in MODES {
        for b in MODES {
            let shared = a == b && a != Mode::X;
            let told = second(rt.alloc(), a, b)?;
            assert_eq!(rt; told.is_ok(), shared, "{b:?} beside {a:?}");
        }
    }
    Ok(())
}

#[test]
fn a_session_is_never_against_itself(rt: HostRuntime) -> Result<(), Fail> {
    for a in MODES {
        for b in MODES {
            let mut locks = Locks::new(rt.alloc());
            locks.try_all(3, &[request(rt.alloc(), a)?])?;
            locks.try_all(3, &[request(rt.alloc(), b)?])?;
            assert!(rt; locks.holds(3, &request(rt.alloc(), a)?));
        }
    }
    Ok(())
}

#[test]
fn a_conflict_ends_when_the_holder_gives_back(rt: HostRuntime) -> Result<(), Fail> {
    let mut locks = Locks::new(rt.alloc());
    locks.try_all(0, &[request(rt.alloc(), Mode::X)?])?;
    let told = locks.try_all(1, &[request(rt.alloc(), Mode::S)?]);
    assert_eq!(rt;
        told,
        Err(TryFault::Conflict {
            request: 0,
            holder: 0
        })
    );
    locks.release_all(0);
    assert_eq!(rt; locks.try_all(1, &[request(rt.alloc(), Mode::S)?]), Ok(()));
    Ok(())
}
