//! Tests of spaces and latches: order, joins, what they stand for, and their numbers in certificates.

use kc_lattice::{Domain, Meaning};
use kc_space::{GsPair, Latches, MapState, SpaceEnv, Tri, Who};

fn joined<D: Domain + Copy>(x: &D, y: &D) -> D
    requires { D.alike x.now y.now }
{
    let mut all = *x;
    all.join(y);
    all
}

fn topped<D: Domain + Copy>(x: &D) -> D {
    let mut top = *x;
    top.set_top();
    top
}

fn stands<M: Meaning>(x: &M, env: &M::Env, c: &M::Conc) -> bool {
    x.stands(env, c)
}

// The two numbers of an independent model's cases.
const ENV: SpaceEnv = SpaceEnv {
    kernel: 0xFFFF_FFFF_8200_2000,
    user: 0x7000,
};

#[test]
fn a_base_and_a_map_are_the_kernels_the_users_or_any(rt: HostRuntime) {
    for (x, y, below, join) in [
        (Who::Kernel, Who::User, false, Who::Any),
        (Who::User, Who::User, true, Who::User),
        (Who::Kernel, Who::Any, true, Who::Any),
        (Who::Any, Who::User, false, Who::Any),
    ] {
        assert_eq!(rt; x.leq(&y), below, "{x:?} {y:?}");
        assert_eq!(rt; joined(&x, &y), join, "{x:?} {y:?}");
    }
    assert!(rt; stands(&Who::Kernel, &ENV, &ENV.kernel) && !stands(&Who::User, &ENV, &ENV.kernel));
    assert!(rt; stands(&Who::Any, &ENV, &1) && topped(&Who::User).is_top() && !Who::User.is_top());

    let map = MapState::User;
    assert!(rt; map.leq(&MapState::Any) && !map.leq(&MapState::Kernel) && topped(&map).is_top());
    assert_eq!(rt; joined(&map, &MapState::Kernel), MapState::Any);
    assert!(rt; stands(&map, &ENV, &ENV.user) && !stands(&map, &ENV, &1));
    assert_eq!(rt;
        (
            Who::Any.number(),
            MapState::User.number(),
            Tri::Yes.number()
        ),
        (2, 1, 1)
    );
}

#[test]
fn pairs_and_latches_go_part_by_part(rt: HostRuntime) {
    let entry = GsPair {
        active: Who::User,
        inactive: Who::Kernel,
    };
    let unknown = GsPair {
        active: Who::User,
        inactive: Who::Any,
    };
    assert!(rt; entry.leq(&unknown) && !unknown.leq(&entry) && topped(&entry).is_top());
    assert_eq!(rt; joined(&entry, &unknown), unknown);
    assert_eq!(rt; (entry.number(), unknown.number()), (1, 7));

    let clear = Latches {
        nmi_blocked: Tri::No,
        shadow: Tri::No,
        mcip: Tri::No,
    };
    let blocked = Latches {
        nmi_blocked: Tri::Yes,
        ..clear
    };
    let either = Latches {
        nmi_blocked: Tri::Any,
        ..clear
    };
    assert_eq!(rt; joined(&clear, &blocked), either);
    assert!(rt; blocked.leq(&either) && !blocked.leq(&clear) && topped(&clear).is_top());
    assert!(rt; stands(&either.nmi_blocked, &(), &true) && !stands(&either.mcip, &(), &true));
}
