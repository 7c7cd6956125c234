// Picks, worked by hand; the words of a seed are those of the generator's published constants (O'Neill, PCG XSH RR 64/32,
// multiplier 6364136223846793005, stream 0).
use super::Schedule;
use std::test::Fail;

const FIVE: [u32; 5] = [0, 1, 2, 3, 4];

fn five_picks(schedule: &mut Schedule) -> [u32; 6] {
    let mut picks = [0; 6];
    for pick in &mut picks {
        *pick = schedule.pick(&FIVE);
    }
    picks
}

#[test]
fn a_list_drops_numbers_that_are_not_enabled(rt: HostRuntime) -> Result<(), Fail> {
    let mut schedule = Schedule::list(vec![in rt.alloc(); 7, 2, 2, 9, 0]?);
    assert_eq!(rt; schedule.pick(&[0, 2]), 2);
    assert_eq!(rt; schedule.pick(&[0, 2]), 2);
    assert_eq!(rt; schedule.pick(&[0, 2]), 0);
    // used up: the first after thread 0
    assert_eq!(rt; schedule.pick(&[0, 2]), 2);
    Ok(())
}

#[test]
fn a_list_that_is_used_up_goes_on_in_turn(rt: HostRuntime) -> Result<(), Fail> {
    let mut schedule = Schedule::list(Vec::new(rt.alloc()));
    assert_eq!(rt; schedule.pick(&[1, 3]), 1);
    assert_eq!(rt; schedule.pick(&[1, 3]), 3);
    assert_eq!(rt; schedule.pick(&[1, 3]), 1);
    for last in FIVE {
        let mut schedule = Schedule::list(vec![in rt.alloc(); last]?);
        assert_eq!(rt; schedule.pick(&FIVE), last);
        assert_eq!(rt; schedule.pick(&FIVE), (last + 1) % 5, "after {last}");
        assert_eq!(rt;
            schedule.pick(&[0, 4]),
            if last == 3 { 0 } else { 4 },
            "after {last}"
        );
    }
    Ok(())
}

#[test]
fn a_seed_gives_the_words_of_its_generator(rt: HostRuntime) {
    // modulo 5: 3837872008 932996374 1548399547 1612522464 473443212 3522865942
    assert_eq!(rt; five_picks(&mut Schedule::seed(0)), [3, 4, 2, 4, 2, 2]);
    // 3795398737 17903413 3545275701 194195274 2326030198 2354257974
    assert_eq!(rt; five_picks(&mut Schedule::seed(1)), [2, 3, 1, 4, 3, 4]);
    // 2244564672 3095889617 1287188843 1975034511 1433942469 3678009505
    assert_eq!(rt;
        five_picks(&mut Schedule::seed(4_294_967_295)),
        [2, 2, 3, 1, 4, 0]
    );
}
