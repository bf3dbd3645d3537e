//! Tests of floors, slots and clobbers.

ghost use Rattle.std.specs.Prelude.{cond, ◌==◌};

use kc_frames::{Change, Clobber, Floor, Floors, Slots};
use kc_lattice::{Domain, Meaning};
use kc_plain::NoMemory;

fn joined<D: Domain + Copy>(x: &D, y: &D) -> D
    requires { D.alike x.now y.now }
{
    let mut all = *x;
    all.join(y);
    all
}

fn stands<M: Meaning>(x: &M, env: &M::Env, c: &M::Conc) -> bool {
    x.stands(env, c)
}

const NONE: Floor = Floor::At(u64::MAX);

const LOW: Floor = Floor::At(0xFFFF_FFFF_8300_5F00);

const HIGH: Floor = Floor::At(0xFFFF_FFFF_8300_5F08);

// The rows are some of an independent model's cases.
#[test]
fn floors_fall_by_address_and_the_base_is_beside_them(rt: HostRuntime) {
    for (x, y, below, join) in [
        (Floor::Base, NONE, false, Floor::Base),
        (NONE, Floor::Base, true, Floor::Base),
        (Floor::Base, Floor::At(0), true, Floor::At(0)),
        (Floor::Base, LOW, false, Floor::At(0)),
        (HIGH, LOW, true, LOW),
        (LOW, HIGH, false, LOW),
        (Floor::At(0), LOW, false, Floor::At(0)),
    ] {
        assert_eq!(rt; x.leq(&y), below, "{x:?} {y:?}");
        assert_eq!(rt; joined(&x, &y), join, "{x:?} {y:?}");
    }
    let live = Some(0xFFFF_FFFF_8300_5F00);
    let base = 0xFFFF_FFFF_8300_5F08;
    assert!(rt; stands(&LOW, &base, &live) && stands(&Floor::Base, &base, &None));
    assert!(rt; !stands(&Floor::Base, &base, &live) && !stands(&NONE, &base, &live));
    assert_eq!(rt;
        (LOW.number(None), Floor::Base.number(None)),
        (Some(0xFFFF_FFFF_8300_5F00), None)
    );

    let quiet = Floors { at: [NONE; 16] };
    let mut floors = quiet;
    floors.at[3] = LOW;
    assert!(rt; quiet.leq(&floors) && !floors.leq(&quiet));
    assert_eq!(rt; joined(&quiet, &floors), floors);
    floors.set_top();
    assert!(rt; floors.is_top());
}

// Slot `at` becomes `to`, and the others stay.
struct Only {
    at: u16,
    to: Floor,
}

impl Change<Floor> for Only {
    ghost changed = { λ c i old. cond (i == c.at) c.to old };

    fn at(&self, i: u16, old: &Floor) -> Floor {
        if i == self.at { self.to } else { *old }
    }
}

#[test]
fn slots_change_one_by_one(rt: HostRuntime) -> Result<(), NoMemory> {
    let mut slots = Slots::new(rt.alloc(), Floor::At(0))?;
    let mut others = Slots::new(rt.alloc(), Floor::At(0))?;
    assert!(rt; slots.is_top() && others.leq(&slots));
    slots.set(295, LOW);
    others.redo(&Only { at: 0, to: NONE });
    assert!(rt; *others.get(0) == NONE && *others.get(1) == Floor::At(0));
    assert!(rt; *slots.get(295) == LOW && *slots.get(294) == Floor::At(0));
    assert!(rt; !others.leq(&slots));
    others.copy_from(&slots);
    others.set(0, HIGH);
    slots.set(0, LOW);
    assert!(rt; others.leq(&slots) && *others.get(295) == LOW);
    others.whole();
    slots.whole();
    others.join(&slots);
    assert!(rt; *others.get(0) == LOW);
    others.set_top();
    assert!(rt; others.is_top());
    Ok(())
}

#[test]
fn clobbers_are_sets_of_stacks_and_words(rt: HostRuntime) {
    let mut written = Clobber::none();
    written.add_stack(15);
    written.add_word(39);
    assert!(rt; written.has_stack(15) && !written.has_stack(14));
    assert!(rt; written.has_word(39) && !written.has_word(0));
    let more = Clobber {
        stacks: 0x8003,
        words: 0x3FF,
    };
    let both = joined(&written, &more);
    assert_eq!(rt; (both.stacks, both.words), (0x8003, 0x80_0000_03FF));
    assert!(rt; written.leq(&both) && !both.leq(&written) && Clobber::none().leq(&written));
    let mut all = both;
    all.set_top();
    assert!(rt; all.is_top() && !both.is_top());
}
