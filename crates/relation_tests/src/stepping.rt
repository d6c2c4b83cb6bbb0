// Narrowing by a rule of the tests' own: places stand in rings of eight, and one stays if the next of its ring is in the set.
ghost use Rattle.std.specs.Prelude.{◌+◌, ◌*◌, ◌/◌, ◌%◌};

use narrowing::{Rule, narrow};
use sets;

#[derive(Drop)]
struct Ring;

impl Rule for Ring {
    ghost says = { λ s set place. set (place / 8 * 8 + (place % 8 + 1) % 8) };

    ghost lawful = { λ s f g within place e. within (place / 8 * 8 + (place % 8 + 1) % 8) e };

    fn ask(&self, place: usize, set: &[u64]) -> bool {
        sets::test(set, place / 8 * 8 + (place % 8 + 1) % 8)
    }
}

#[test]
fn whole_rings_stay(rt: HostRuntime) {
    let mut set = [0x00ff_7fff_0000_01ff, 0, 0xff00_0000_0000_0080];
    narrow(&Ring, &mut set);
    assert_eq!(rt; set, [0x00ff_00ff_0000_00ff, 0, 0xff00_0000_0000_0000]);
}

#[test]
fn nothing_or_all_stays(rt: HostRuntime) {
    let mut broken = [0xfefe_fefe_fefe_fefe; 2];
    narrow(&Ring, &mut broken);
    assert_eq!(rt; broken, [0, 0]);
    let mut full = [0xffff_ffff_ffff_ffff];
    narrow(&Ring, &mut full);
    assert_eq!(rt; full, [0xffff_ffff_ffff_ffff]);
}

#[test]
fn members_in_order(rt: HostRuntime) {
    let mut set = [0; 3];
    sets::put(&mut set, 5);
    sets::put(&mut set, 130);
    sets::put(&mut set, 192);
    assert_eq!(rt; sets::next(&set, 0), Some(5));
    assert_eq!(rt; sets::next(&set, 6), Some(130));
    assert_eq!(rt; sets::next(&set, 131), None);
    sets::remove(&mut set, 130);
    sets::remove(&mut set, 131);
    assert_eq!(rt; sets::next(&set, 6), None);
    assert!(rt; sets::test(&set, 5) && !sets::test(&set, 130) && !sets::test(&set, 192));
}
