use farm_kinds::{Few, Kind, Name, Numbers, Rule, RuleFault, Text, raw_image, verdict};
use std::test::Fail;

#[test]
fn the_earliest_of_the_greatest_decides(rt: HostRuntime) -> Result<(), Fail> {
    let rule = Rule::standard();
    let cases: [(&[Kind], Option<Kind>); 4] = [
        (&[], None),
        (&[Kind::Correct, Kind::Correct], Some(Kind::Correct)),
        (
            &[Kind::Correct, Kind::TimeLimit, Kind::RunError],
            Some(Kind::TimeLimit),
        ),
        (
            &[Kind::NoOutput, Kind::WrongAnswer, Kind::Correct],
            Some(Kind::WrongAnswer),
        ),
    ];
    for (kinds, want) in cases {
        assert_eq!(rt; verdict(&rule, kinds), want);
    }
    Ok(())
}

#[test]
fn the_first_priority_over_999_is_named(rt: HostRuntime) -> Result<(), Fail> {
    assert!(rt; Rule::new([999; 8], Kind::ALL).is_ok());
    let mut prio = [0; 8];
    prio[6] = 1_000;
    prio[3] = 1_001;
    assert_eq!(rt;
        Rule::new(prio, Kind::ALL).err(),
        Some(RuleFault::TooHigh {
            kind: Kind::TimeLimit,
            value: 1_001
        })
    );
    Ok(())
}

#[test]
fn names_have_1_to_32_bytes(rt: HostRuntime) -> Result<(), Fail> {
    for word in [b"a-Z_9".as_slice(), [b'a'; 32].as_slice()] {
        let read = Name::read(word);
        assert!(rt; read.is_some_and(|name| name.as_bytes() == word));
    }
    for word in [
        b"".as_slice(),
        b"A.B".as_slice(),
        b"a b".as_slice(),
        [b'a'; 33].as_slice(),
    ] {
        assert!(rt; Name::read(word).is_none());
    }
    Ok(())
}

/// Whether lists that are new hold what is added to them, in order.
fn grow(numbers: &mut Numbers, text: &mut Text) -> bool {
    numbers.push(7).is_ok()
        && numbers.push(1).is_ok()
        && text.push(b'o').is_ok()
        && text.push(b'k').is_ok()
        && numbers.as_slice() == [7, 1].as_slice()
        && text.as_slice() == b"ok".as_slice()
}

#[test]
fn lists_grow_at_their_end(rt: HostRuntime) -> Result<(), Fail> {
    let mut numbers = Numbers::new(rt.alloc());
    let mut text = Text::new(rt.alloc());
    let grown = grow(&mut numbers, &mut text);
    let bytes = text.into_vec();
    let len = bytes.len();
    drop(bytes);
    drop(numbers);
    assert_eq!(rt; (grown, len), (true, 2));
    Ok(())
}

#[test]
fn images_are_whole_words(rt: HostRuntime) -> Result<(), Fail> {
    for (len, want) in [(0, false), (3, false), (4, true), (6, false), (8, true)] {
        assert_eq!(rt; raw_image(&[0; 8][..len]), want, "at {len}");
    }
    Ok(())
}

#[test]
fn a_few_tests_are_kept_in_order(rt: HostRuntime) -> Result<(), Fail> {
    let mut few = Few::of(3);
    few.push(1_000);
    assert!(rt; few.as_slice() == [3u16, 1_000].as_slice());
    Ok(())
}
