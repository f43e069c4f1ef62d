#![tactic(auto)]

// What a load answers: the table's length and the number of warnings, or a refusal with its place.
// Stays: spec_demand/specs/Front.antt: Total.load_refusals and Exact.refused are stated with its cases.
#[derive(Clone, Copy)]
pub enum Loaded {
    Accepted {
        length: usize,
        warnings: usize,
    },
    Refused {
        refusal: spec_file::Refusal,
        place: usize,
    },
}

// What listing the warnings of a text answers: how many there are, or why the text is refused.
// Stays: spec_demand/specs/Front.antt: Total.listing_refusals and Exact.refused_list are stated with its cases.
#[derive(Clone, Copy)]
pub enum Listed {
    Warnings(usize),
    Refused {
        refusal: spec_file::Refusal,
        place: usize,
    },
}
