//! Tests of keys, of where values point, and of states as domains.

use kc_bits::Bits;
use kc_frames::{Clobber, Floor};
use kc_lattice::Domain;
use kc_plain::NoMemory;
use kc_space::{GsPair, Latches, MapState, Tri, Who};
use kc_state::{AbsState, Condition, Key, Location, Scratch, Site, Summary, UserState, loc};
use kc_value::{Sym, Value};
use std::cmp::Ordering;

// SYSCALL, a page fault in the kernel on stack 0, and an NMI in the kernel whose base is a constant.
fn keys() -> (Key, Key, Key) {
    let gs = GsPair {
        active: Who::Kernel,
        inactive: Who::User,
    };
    let fault = Key {
        syscall: false,
        vector: 14,
        kernel: true,
        gs,
        map: MapState::Kernel,
        stack: Some(0),
        base: None,
    };
    let syscall = Key {
        syscall: true,
        vector: 0,
        kernel: false,
        map: MapState::User,
        stack: None,
        ..fault
    };
    let nmi = Key {
        vector: 2,
        stack: Some(1),
        base: Some(0xFFFF_FFFF_8400_6000),
        ..fault
    };
    (syscall, fault, nmi)
}

fn value(sym: Sym) -> Value {
    let any = Value::top();
    match sym {
        Sym::Entry(_) => any,
        _ => Value { sym, ..any },
    }
}

#[test]
fn keys_are_ordered_as_their_numbers(rt: HostRuntime) {
    let (syscall, fault, nmi) = keys();
    assert_eq!(rt; syscall.numbers(), [0, 0, 0, 3, 1, 255, 0, 0]);
    assert_eq!(rt; nmi.numbers(), [1, 2, 1, 3, 0, 1, 1, 0xFFFF_FFFF_8400_6000]);
    assert_eq!(rt; syscall.order(&nmi), Ordering::Less);
    assert_eq!(rt; fault.order(&nmi), Ordering::Greater);
    assert_eq!(rt; fault.order(&fault), Ordering::Equal);
    assert!(rt; syscall.keeps_rules(1) && fault.keeps_rules(1) && !nmi.keeps_rules(1));
    let site = Site {
        at: 7,
        inside: false,
    };
    assert!(rt;
        site < Site {
            inside: true,
            ..site
        } && Condition::RETURN_TEST == Condition(12)
    );
}

// Some of an independent model's cases.
#[test]
fn a_value_points_by_its_base_or_its_number(rt: HostRuntime) {
    let (syscall, fault, nmi) = keys();
    let base = value(Sym::Base(-8));
    assert_eq!(rt; loc(&fault, &base), Some(Location::Relative(-8)));
    assert_eq!(rt;
        loc(&nmi, &base),
        Some(Location::Number(0xFFFF_FFFF_8400_5FF8))
    );
    assert_eq!(rt; loc(&syscall, &base), None);
    assert_eq!(rt;
        loc(&fault, &Value::constant(5, None)),
        Some(Location::Number(5))
    );
    assert_eq!(rt; loc(&fault, &value(Sym::UserGs)), None);
}

#[test]
fn states_go_part_by_part(rt: HostRuntime) -> Result<(), NoMemory> {
    let scratch = Scratch::new(rt.alloc())?;
    assert!(rt; scratch.out.is_top() && scratch.back.is_top());
    let mut state = AbsState::new(rt.alloc())?;
    let mut back = AbsState::new(rt.alloc())?;
    assert!(rt; state.is_top() && back.leq(&state));
    state.regs[4] = Value::constant(5, None);
    state.slots.set(40, value(Sym::Base(0)));
    assert!(rt; state.leq(&back) && !back.leq(&state));
    back.copy_from(&state);
    back.flags = Value::constant(2, None);
    back.floors.at[0] = Floor::At(7);
    state.join(&back);
    let rsp = state.regs[4];
    assert!(rt; state.flags.is_top() && rsp.bits == Bits::of(5));
    let slot = *state.slots.get(40);
    assert!(rt; back.leq(&state) && slot.sym == Sym::Base(0));
    state.set_top();
    assert!(rt; state.is_top() && scratch.out.leq(&state));

    let mut user = UserState::new(rt.alloc())?;
    let mut other = UserState::new(rt.alloc())?;
    user.nmi_blocked = Tri::No;
    assert!(rt; user.leq(&other) && !other.leq(&user));
    other.copy_from(&user);
    other.join(&user);
    assert!(rt; other.nmi_blocked == Tri::No && !other.is_top());
    other.set_top();
    assert!(rt; other.is_top());
    Ok(())
}

#[test]
fn summaries_go_part_by_part(rt: HostRuntime) {
    let latches = Latches {
        nmi_blocked: Tri::No,
        shadow: Tri::No,
        mcip: Tri::Yes,
    };
    let mut summary = Summary {
        clobber: Clobber::none(),
        latches,
    };
    let mut other = summary;
    other.clobber.add_stack(3);
    other.latches.shadow = Tri::Any;
    assert!(rt; summary.leq(&other) && !other.leq(&summary));
    summary.join(&other);
    assert_eq!(rt; summary, other);
    summary.set_top();
    assert!(rt; summary.is_top() && !other.is_top());
}
