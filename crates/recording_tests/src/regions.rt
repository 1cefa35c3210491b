//! A region that is filled and cleared.
ghost use Rattle.std.specs.Prelude.{◌≡◌};
ghost use Rattle.byte_region.specs.Regions.{empty_region};

use crate::same::holds;
use byte_region::Region;
use std::test::Fail;

// Whether a region of four bytes takes two and two more, and is empty again once it is cleared.
fn is_filled(region: &mut Region) -> bool
    requires { region.old ≡ empty_region 4 }
{
    region.push(&[1, 2]);
    let has_two = region.spare() == 2 && region.bytes() == [1, 2].as_slice();
    region.push(&[3, 4]);
    let has_four = region.spare() == 0 && region.bytes() == [1, 2, 3, 4].as_slice();
    region.clear();
    has_two && has_four && region.spare() == 4 && region.bytes().is_empty()
}

#[test]
fn a_region_takes_what_fits(rt: HostRuntime) -> Result<(), Fail> {
    let mut region = Region::with_room(rt.alloc(), 4)?;
    let is_so = is_filled(&mut region);
    holds(&rt, is_so);
    Ok(())
}
