ghost use Rattle.std.specs.Prelude.{◌≡◌};
ghost use Rattle.varint.specs.Refusal.{number_of};

// Why a call is refused: docs/FORMATS.md, 'What is refused'.
#[derive(Clone, Copy, Debug, PartialEq, Eq)]
pub enum Refusal {
    ShortWork,
    ShortSlip,
    Ends,
    Overlong,
    Nodes,
    Arcs,
    Place,
    Limit,
    ArcEnd,
    Minutes,
    Mark,
    Rest,
    Required,
    NoItem,
    NotStruck,
    BadSlip,
    BadClaim,
    ShortSheet,
    NotShelved,
    OtherMap,
    Full,
}

impl From<Refusal> for u32 {
    ghost from_gives = { λ why n. n ≡ number_of why };

    fn from(why: Refusal) -> u32 {
        match why {
            Refusal::ShortWork => 1,
            Refusal::ShortSlip => 2,
            Refusal::Ends => 3,
            Refusal::Overlong => 4,
            Refusal::Nodes => 5,
            Refusal::Arcs => 6,
            Refusal::Place => 7,
            Refusal::Limit => 8,
            Refusal::ArcEnd => 9,
            Refusal::Minutes => 10,
            Refusal::Mark => 11,
            Refusal::Rest => 12,
            Refusal::Required => 13,
            Refusal::NoItem => 15,
            Refusal::NotStruck => 16,
            Refusal::BadSlip => 17,
            Refusal::BadClaim => 18,
            Refusal::ShortSheet => 19,
            Refusal::NotShelved => 20,
            Refusal::OtherMap => 22,
            Refusal::Full => 23,
        }
    }
}
