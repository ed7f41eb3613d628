// Rooms by age and by rank, on examples.
use crate::entry::{Entry, PutFault};
use crate::order::Order;
use crate::waiting::Room;
use crate::{AgeRoom, RankRoom};

fn put<R: Room>(room: &mut R, ticket: u32, operation: u8, rank: u8) -> Result<(), PutFault> {
    room.put(Entry {
        ticket,
        operation,
        rank,
    })
}

// The ticket that is taken.
fn taken<R: Room>(room: &mut R, allowed: &[bool; 64]) -> Option<u32> {
    room.take(allowed).map(|e| e.ticket)
}

#[test]
fn has_256_places(rt: HostRuntime) {
    let mut room = AgeRoom::new();
    for k in 0..256 {
        assert_eq!(rt; put(&mut room, 256 - k, 63, 9), Ok(()));
    }
    assert_eq!(rt; room.count(), 256);
    assert_eq!(rt; put(&mut room, 257, 0, 0), Err(PutFault::Full));
    assert_eq!(rt; put(&mut room, 7, 0, 0), Err(PutFault::Known));
    assert_eq!(rt; room.count(), 256);
    assert_eq!(rt; taken(&mut room, &[true; 64]), Some(1));
    assert_eq!(rt; put(&mut room, 257, 0, 0), Ok(()));
}

#[test]
fn by_age(rt: HostRuntime) {
    let mut room = AgeRoom::new();
    let mut allowed = [false; 64];
    assert_eq!(rt; taken(&mut room, &allowed), None);
    assert_eq!(rt; put(&mut room, 8, 2, 9), Ok(()));
    assert_eq!(rt; put(&mut room, 3, 1, 0), Ok(()));
    assert_eq!(rt; put(&mut room, 5, 2, 5), Ok(()));
    assert_eq!(rt; taken(&mut room, &allowed), None);
    allowed[2] = true;
    assert_eq!(rt; taken(&mut room, &allowed), Some(5));
    assert_eq!(rt; taken(&mut room, &[true; 64]), Some(3));
    assert_eq!(rt; room.drop_ticket(8), Some(2));
    assert_eq!(rt; room.drop_ticket(8), None);
    assert_eq!(rt; room.count(), 0);
}

#[test]
fn by_rank(rt: HostRuntime) {
    let mut room = RankRoom::new();
    assert_eq!(rt; put(&mut room, 4, 0, 5), Ok(()));
    assert_eq!(rt; put(&mut room, 2, 0, 5), Ok(()));
    assert_eq!(rt; put(&mut room, 1, 0, 3), Ok(()));
    assert_eq!(rt; put(&mut room, 9, 63, 7), Ok(()));
    assert_eq!(rt; put(&mut room, 6, 200, 9), Ok(()));
    assert_eq!(rt; taken(&mut room, &[true; 64]), Some(9));
    assert_eq!(rt; taken(&mut room, &[true; 64]), Some(2));
    assert_eq!(rt; taken(&mut room, &[true; 64]), Some(4));
    assert_eq!(rt; taken(&mut room, &[true; 64]), Some(1));
    assert_eq!(rt; taken(&mut room, &[true; 64]), None);
    assert_eq!(rt; room.drop_ticket(6), Some(200));
}
