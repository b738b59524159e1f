// The error word, on one thread.
use crate::job::Periodic;
use first_error::FirstError;
use std::test::Fail;

/// Eight pieces, of which 1 and 7 fail.
#[test]
fn the_word_has_the_least_report(rt: HostRuntime) -> Result<(), Fail> {
    let job = Periodic {
        pieces: 8,
        period: 6,
        at: 1,
    };
    let (word, mut seat) = FirstError::open(rt.alloc(), &job)?;
    let before = word.least(&mut seat);
    word.report(&mut seat, 7);
    let first = word.least(&mut seat);
    word.report(&mut seat, 1);
    word.report(&mut seat, 7);
    let mut other = word.split(&mut seat);
    let seen = word.least(&mut other);
    word.join(&mut seat, other);
    let last = word.least(&mut seat);
    assert!(rt; before == None && first == Some(7));
    assert!(rt; seen == Some(1) && last == Some(1));
    assert!(rt; word.close(seat) == Some(1));
    Ok(())
}
