use super::*;
use crate::ranking::{TooMany, sort};
use queue::{Full, first, put, take};
use std::test::Fail;

fn rank(limit: u32, number: usize) -> Rank {
    Rank { limit, number }
}

fn ticket(limit: u32, tag: u8) -> Ticket {
    Ticket { limit, tag }
}

#[test]
fn puts_until_full_and_hands_the_record_back(rt: HostRuntime) -> Result<(), Fail> {
    let mut places: [Option<Rank>; 2] = [None, None];
    put(&mut places, rank(6, 0))?;
    put(&mut places, rank(4, 1))?;
    assert_eq!(rt; put(&mut places, rank(12, 2)), Err(Full(rank(12, 2))));
    assert_eq!(rt; take(&mut places), Some(rank(4, 1)));
    assert_eq!(rt; take(&mut places), Some(rank(6, 0)));
    assert_eq!(rt; take(&mut places), None);
    Ok(())
}

#[test]
fn takes_in_order_of_limit_and_then_number(rt: HostRuntime) -> Result<(), Fail> {
    let mut places: [Option<Rank>; 5] = [None; 5];
    put(&mut places, rank(12, 2))?;
    put(&mut places, rank(6, 3))?;
    put(&mut places, rank(6, 0))?;
    put(&mut places, rank(4, 1))?;
    assert_eq!(rt; take(&mut places), Some(rank(4, 1)));
    assert_eq!(rt; take(&mut places), Some(rank(6, 0)));
    assert_eq!(rt; take(&mut places), Some(rank(6, 3)));
    assert_eq!(rt; take(&mut places), Some(rank(12, 2)));
    assert_eq!(rt; take(&mut places), None);
    Ok(())
}

#[test]
fn points_at_the_first_and_leaves_it_there(rt: HostRuntime) {
    let places = [Some(rank(6, 3)), None, Some(rank(6, 0)), Some(rank(12, 1))];
    assert_eq!(rt; first(&places), Some(2));
    assert_eq!(rt; first(&places), Some(2));
    assert_eq!(rt;
        places,
        [Some(rank(6, 3)), None, Some(rank(6, 0)), Some(rank(12, 1))]
    );
}

#[test]
fn goes_by_an_order_beside_the_librarys(rt: HostRuntime) {
    let one = ticket(5, 1);
    let other = ticket(5, 2);
    assert!(rt; one < other);
    assert!(rt; !one.goes_before(&other));
    assert!(rt; !other.goes_before(&one));
}

#[test]
fn gives_each_of_two_that_tie_once(rt: HostRuntime) -> Result<(), Fail> {
    let mut places: [Option<Ticket>; 3] = [None; 3];
    put(&mut places, ticket(5, 1))?;
    put(&mut places, ticket(5, 2))?;
    put(&mut places, ticket(3, 9))?;
    assert_eq!(rt; take(&mut places), Some(ticket(3, 9)));
    let one = take(&mut places).ok_or("empty")?;
    let other = take(&mut places).ok_or("empty")?;
    assert_eq!(rt; one.limit, 5);
    assert_eq!(rt; other.limit, 5);
    assert!(rt; (one.tag == 1 && other.tag == 2) || (one.tag == 2 && other.tag == 1));
    assert_eq!(rt; take(&mut places), None);
    Ok(())
}

#[test]
fn uses_a_place_given_up_again(rt: HostRuntime) -> Result<(), Fail> {
    let mut places: [Option<Rank>; 2] = [Some(rank(9, 0)), Some(rank(7, 1))];
    assert!(rt; put(&mut places, rank(8, 2)).is_err());
    assert_eq!(rt; take(&mut places), Some(rank(7, 1)));
    put(&mut places, rank(8, 2))?;
    assert!(rt; put(&mut places, rank(1, 3)).is_err());
    assert_eq!(rt; take(&mut places), Some(rank(8, 2)));
    assert_eq!(rt; take(&mut places), Some(rank(9, 0)));
    assert_eq!(rt; take(&mut places), None);
    Ok(())
}

#[test]
fn takes_nothing_from_an_empty_queue(rt: HostRuntime) {
    let mut places: [Option<Rank>; 3] = [None; 3];
    assert_eq!(rt; first(&places), None);
    assert_eq!(rt; take(&mut places), None);
    assert_eq!(rt; places, [None; 3]);
    let mut no_places: [Option<Rank>; 0] = [];
    assert_eq!(rt; take(&mut no_places), None);
    assert!(rt; put(&mut no_places, rank(1, 0)).is_err());
}

#[test]
fn sorts_by_way_of_the_queue(rt: HostRuntime) -> Result<(), Fail> {
    let mut ranks = [rank(12, 2), rank(6, 3), rank(6, 0), rank(4, 1)];
    sort(&mut ranks)?;
    assert_eq!(rt; ranks, [rank(4, 1), rank(6, 0), rank(6, 3), rank(12, 2)]);
    let mut nine = [rank(1, 0); 9];
    assert_eq!(rt; sort(&mut nine), Err(TooMany));
    Ok(())
}
