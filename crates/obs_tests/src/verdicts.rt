// Each flaw in each kind of claim.

mod candidates;
mod components;

use crate::scripts::cut_at;
use obs_cert::FlawCode;
use obs_text::whole;

const CODES: &[FlawCode] = &[
    FlawCode::UnknownName,
    FlawCode::NotComponent,
    FlawCode::NotInside,
    FlawCode::NotTouched,
    FlawCode::Twice,
    FlawCode::Cycle,
    FlawCode::WrongLength,
    FlawCode::WrongRank,
    FlawCode::WrongOutside,
    FlawCode::NotBelow,
    FlawCode::WrongLayers,
    FlawCode::WrongCost,
];

// Whether the code has this number and this name, which a blank parts.
fn is_told(code: FlawCode, want: &[u8]) -> bool {
    let (number, name) = cut_at(want, b' ');
    whole(number) == Some(u64::from(code.code())) && code.name() == name
}

#[test]
fn flaws(rt: HostRuntime) {
    let mut rest = b"1 UnknownName
2 NotComponent
3 NotInside
4 NotTouched
5 Twice
6 Cycle
7 WrongLength
8 WrongRank
9 WrongOutside
10 NotBelow
11 WrongLayers
12 WrongCost
"
        .as_slice();
    for code in CODES {
        let (want, behind) = cut_at(rest, b'\n');
        assert!(rt; is_told(*code, want));
        rest = behind;
    }
    assert!(rt; rest.is_empty());
}
