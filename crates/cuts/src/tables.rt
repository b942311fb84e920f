//! The tables: which corners make up the tetrahedra of a wedge and of a brick, a row a string of digits.
ghost use Rattle.std.specs.Prelude.{[], ◌≡◌, ◌<◌, ◌≤◌, get_or, length};
ghost use Rattle.cuts.specs.Rows.{branch, hex_rows};
ghost use Rattle.cuts.specs.Inner.Strings.{hex_strings, quad_strings, turn_strings, wedge_strings};
ghost use Rattle.cuts.specs.Table.{hex_table, used};

/// The brick: eight rows for each place of the smallest, in the order of the cases. 0000 fills the rows of five.
/// The first eight are the rows of a brick that is renumbered.
const HEX_TABLE: [[u8; 24]; 64] = [
    *b"056401260165067402370276",
    *b"056401260165067406370236",
    *b"056401250526067402370276",
    *b"056401250526067406370236",
    *b"057401650675012607230762",
    *b"057401650675012606370236",
    *b"057401252675023705270000",
    *b"057405670637012506520362",
    *b"167512371276174513041347",
    *b"167512371276174517041307",
    *b"167512361637174513041347",
    *b"167512361637174517041307",
    *b"164512761746123714301473",
    *b"164512761746123717041307",
    *b"164512363746130416340000",
    *b"164516741704123617631073",
    *b"274623042347245620152054",
    *b"274623042347245624152014",
    *b"274623072704245620152054",
    *b"274623072704245624152014",
    *b"275623472457230425012540",
    *b"275623472457230424152014",
    *b"275623070457201527050000",
    *b"275627452415230724702140",
    *b"345730153054356731263165",
    *b"345730153054356735263125",
    *b"345730143415356731263165",
    *b"345730143415356735263125",
    *b"346730543564301536123651",
    *b"346730543564301535263125",
    *b"346730141564312634160000",
    *b"346734563526301435413251",
    *b"432047624723421046514612",
    *b"432047624723421042514652",
    *b"432047634362421046514612",
    *b"432047634362421042514652",
    *b"431047234213476241654126",
    *b"431047234213476242514652",
    *b"431047636213465143610000",
    *b"431043214251476342364526",
    *b"503154735430532157625723",
    *b"503154735430532153625763",
    *b"503154705073532157625723",
    *b"503154705073532153625763",
    *b"502154305320547352765237",
    *b"502154305320547353625763",
    *b"502154707320576250720000",
    *b"502150325362547053075637",
    *b"610265406501603264736430",
    *b"610265406501603260736470",
    *b"610265416140603264736430",
    *b"610265416140603260736470",
    *b"613265016031654063476304",
    *b"613265016031654060736470",
    *b"613265414031647361430000",
    *b"613261036073654160146704",
    *b"721376517612710375407501",
    *b"721376517612710371407541",
    *b"721376527251710375407501",
    *b"721376527251710371407541",
    *b"720376127102765170547015",
    *b"720376127102765171407541",
    *b"720376525102754072500000",
    *b"720372107140765271257415",
];

/// The brick's corners in the order that begins at its smallest, by the place of the smallest.
const RENUMBERINGS: [[u8; 8]; 8] = [
    *b"01234567",
    *b"12305674",
    *b"23016745",
    *b"30127456",
    *b"47650321",
    *b"54761032",
    *b"65472103",
    *b"76543210",
];

/// The wedge: two rows for each place of the smallest, where the quad that is left is cut along its first
/// diagonal and where it is cut along its second.
const WEDGE_TABLE: [[u8; 12]; 12] = [
    *b"045301540512",
    *b"045302410425",
    *b"153412351320",
    *b"153410521503",
    *b"234520432401",
    *b"234524312130",
    *b"321031543512",
    *b"321032413425",
    *b"402142354320",
    *b"402140524503",
    *b"510250435401",
    *b"510251305314",
];

/// The quad that is left beside a wedge's smallest, in the order in which it is searched.
const WEDGE_QUADS: [[u8; 4]; 6] = [*b"1254", *b"2035", *b"0143", *b"1254", *b"2035", *b"0143"];

/// How many cases the brick has.
pub const HEX_CASES: usize = 8;

/// The case with five tetrahedra.
const FIVE_ROWS: usize = 6;

/// One function for each table: each has a type and a definition of its own.
#[tactic(auto, unfolding(crate::specs::Inner::Strings::hex_strings))]
pub fn hex_table() -> &'static [[u8; 24]; 64]
    ensures { result.now ≡ hex_strings }
{
    &HEX_TABLE
}

#[tactic(auto, unfolding(crate::specs::Inner::Strings::turn_strings))]
pub fn renumberings() -> &'static [[u8; 8]; 8]
    ensures { result.now ≡ turn_strings }
{
    &RENUMBERINGS
}

#[tactic(auto, unfolding(crate::specs::Inner::Strings::wedge_strings))]
pub fn wedge_table() -> &'static [[u8; 12]; 12]
    ensures { result.now ≡ wedge_strings }
{
    &WEDGE_TABLE
}

#[tactic(auto, unfolding(crate::specs::Inner::Strings::quad_strings))]
pub fn wedge_quads() -> &'static [[u8; 4]; 6]
    ensures { result.now ≡ quad_strings }
{
    &WEDGE_QUADS
}

/// How many tetrahedra a case of the brick has.
#[tactic(auto, using(crate::proofs::Laws::six_rows))]
pub fn case_count(case: usize) -> usize
    ensures { (result ≡ length (branch hex_rows [] case)) × (result ≤ 6) }
{
    if case == FIVE_ROWS { 5 } else { 6 }
}

/// How many tetrahedra a row of the brick's table has.
#[tactic(auto, using(crate::proofs::Strings::row_case))]
pub fn row_count(row: usize) -> usize
    requires { row < 64 }
    ensures { (result ≡ length (used (get_or hex_table row []))) × (result ≤ 6) }
{
    case_count(row % HEX_CASES)
}
