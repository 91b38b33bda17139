//! Plans that are offered by two threads, and by two shares of one.

ghost use Rattle.std.specs.Prelude.{◌≡◌};
ghost use Rattle.incumbent.specs.Peak.{IsShareOf};
ghost use Rattle.incumbent.specs.Share.{weight_of};

use incumbent::{Offered, Peak, Share, Worth};
use std::test::Fail;
use std::thread::join_mut;

// A plan that is only its worth.
#[derive(Clone, Copy, Debug, PartialEq, Eq)]
struct Plan(u64);

impl Worth for Plan {
    ghost worth = { λ plan. plan.0 };

    fn worth(&self) -> u64 {
        self.0
    }
}

// Offers the plans of these worths, the smaller first.
fn offer_all(peak: &Peak, share: &mut Share<Plan>, from: u64, to: u64)
    requires { IsShareOf peak.now share.old }
    ensures own { IsShareOf peak.now share.new }
    ensures weight { weight_of share.new ≡ weight_of share.old }
{
    for worth in from..to {
        peak.offer(share, Plan(worth));
    }
}

#[test]
fn two_threads_offer_and_the_best_plan_is_left(rt: HostRuntime) -> Result<(), Fail> {
    let (peak, mut first) = Peak::new(rt.alloc(), Plan(0))?;
    let mut second = peak.split(&mut first, Plan(0));
    join_mut(
        &rt,
        &mut || offer_all(&peak, &mut first, 1, 501),
        &mut || offer_all(&peak, &mut second, 501, 1001),
    );
    peak.join(&mut first, second);
    let best = peak.close(first);
    assert_eq!(rt; best, Plan(1000));
    Ok(())
}

#[test]
fn a_new_share_sees_what_the_old_one_offers_later(rt: HostRuntime) -> Result<(), Fail> {
    let (peak, mut old) = Peak::new(rt.alloc(), Plan(7))?;
    let mut new = peak.split(&mut old, Plan(5));
    assert_eq!(rt; peak.offer(&mut old, Plan(7)), Offered::Kept { old: 7 });
    assert_eq!(rt; peak.offer(&mut old, Plan(9)), Offered::Raised { old: 7 });
    assert_eq!(rt; peak.see(&mut new), 9);
    peak.join(&mut new, old);
    assert_eq!(rt; peak.close(new), Plan(9));
    Ok(())
}

fn needs_sync<X: Sync>(_: &X) {}

fn needs_send<X: Send>(_: &X) {}

// A peak can be shared, and a share can be sent where its plan can.
fn can_cross_threads<P: Worth + Send>(peak: &Peak, share: &Share<P>) {
    needs_sync(peak);
    needs_send(share);
}
