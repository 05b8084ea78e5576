// Kinds: what each of them uses of its record, one decision for propositions and one for terms. Document 01's form: a match on the kind byte, with a
// range for the unknown kinds. (Their rows are of two types: one function for both would name the fields through a trait.)
ghost use Rattle.std.specs.Prelude.{◌≡◌};
ghost use Rattle.layout.specs.File.{prop_kind, kind_of};
ghost use Rattle.layout.specs.Form.{prop_shape, term_shape};

// What a kind of proposition uses: of the fields a, b and c the first so many; so many children; and this range of parameter
// counts, an empty one for a kind that is not known.
#[derive(Clone, Copy, Debug, PartialEq, Eq)]
pub struct PropShape {
    pub fields: u8,
    pub children: u8,
    pub least: u8,
    pub most: u8,
}

// What a kind of term uses: names, children, and a range of type tags, an empty one for a kind that is not known.
#[derive(Clone, Copy, Debug, PartialEq, Eq)]
pub struct TermShape {
    pub names: u8,
    pub children: u8,
    pub least: u8,
    pub most: u8,
}

fn prop_row(fields: u8, children: u8, least: u8, most: u8) -> PropShape
    ensures { result ≡ record { fields = fields; children = children; least = least; most = most } }
{
    PropShape {
        fields,
        children,
        least,
        most,
    }
}

// One decision over the eight kinds of proposition.
pub fn prop_shape(kind: u8) -> PropShape
    ensures { result ≡ prop_shape (prop_kind kind) }
{
    match kind {
        0 => prop_row(0, 0, 0, 0),
        1 => prop_row(0, 0, 0, 0),
        2 => prop_row(2, 2, 0, 0),
        3 => prop_row(2, 2, 0, 0),
        4 => prop_row(2, 2, 0, 0),
        5 => prop_row(3, 1, 0, 0),
        6 => prop_row(3, 1, 0, 0),
        7 => prop_row(1, 0, 0, 4),
        8..=255 => prop_row(0, 0, 1, 0),
    }
}

fn term_row(names: u8, children: u8, least: u8, most: u8) -> TermShape
    ensures { result ≡ record { names = names; children = children; least = least; most = most } }
{
    TermShape {
        names,
        children,
        least,
        most,
    }
}

// One decision over the fourteen kinds of term.
pub fn term_shape(kind: u8) -> TermShape
    ensures { result ≡ term_shape (kind_of kind) }
{
    match kind {
        0 => term_row(1, 0, 0, 0),
        1 => term_row(0, 2, 0, 0),
        2 => term_row(0, 1, 0, 0),
        3 => term_row(0, 1, 0, 0),
        4 => term_row(1, 1, 0, 2),
        5 => term_row(0, 2, 0, 0),
        6 => term_row(2, 2, 0, 0),
        7 => term_row(0, 1, 0, 0),
        8 => term_row(0, 1, 0, 0),
        9 => term_row(2, 3, 0, 0),
        10 => term_row(0, 1, 0, 0),
        11 => term_row(0, 0, 0, 0),
        12 => term_row(0, 1, 1, 2),
        13 => term_row(0, 0, 0, 0),
        14..=255 => term_row(0, 0, 1, 0),
    }
}
