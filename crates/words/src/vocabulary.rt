// Which word of the vocabulary a word is, and when two words are the same: case does not count.
ghost use Rattle.std.specs.Prelude.{◌≡◌, ◌<◌, ◌≤◌, length, eqb, position};
ghost use Rattle.words.specs.Vocabulary.{lower_of, same_word, row_of};
ghost use Rattle.words.specs.Inside.Codes.{letter_of, code_of, codes};

// The rows of the vocabulary, each word as a number: its letters are digits 1 to 26 in base 28, the first the lowest.
static CODES: [u64; 108] = [
    442765965, // entity
    541, // is
    3533, // end
    47028835991020073, // architecture
    183, // of
    207452159, // signal
    8808382, // begin
    6767023510, // boolean
    9486064184, // process
    7806428387484, // transport
    11189417, // after
    177, // if
    311492, // then
    124997, // else
    273434, // null
    16114, // not
    98826, // nand
    14546, // nor
    3529, // and
    519, // or
    14556, // xor
    407312, // xnor
    126748, // true
    3499810, // false
    538, // fs
    548, // ps
    546, // ns
    553, // us
    545, // ms
    2511, // sec
    11241, // min
    512, // hr
    14953, // abs
    338787653, // access
    11707809, // alias
    9745, // all
    15402969, // array
    355396357, // assert
    2169028622321, // attribute
    6839170, // block
    552358, // body
    312996910, // buffer
    15486, // bus
    124687, // case
    7747600944247, // component
    3378336324200934407, // configuration
    276634966471, // constant
    212776986415984, // disconnect
    270774424, // downto
    3900741, // elsif
    446773, // exit
    119426, // file
    14538, // for
    196296617586, // function
    77130843699, // generate
    1611748915, // generic
    10307759, // group
    2016468195, // guarded
    97589557, // impure
    401, // in
    162564618337, // inertial
    12766273, // inout
    7487240, // label
    12358055848, // library
    2530791464, // linkage
    5811083528, // literal
    363424, // loop
    12585, // map
    3569, // mod
    18186, // new
    458010, // next
    407, // on
    311711, // open
    338177407, // others
    16283, // out
    2530782620, // package
    453588, // port
    1585687544548, // postponed
    2142074394168, // procedure
    124476, // pure
    3237966, // range
    80237070, // record
    245638253774, // register
    346169086, // reject
    10350, // rem
    355613150, // report
    252485790, // return
    9846, // rol
    14550, // ror
    346170655, // select
    347127103167, // severity
    72310915, // shared
    1139, // sla
    9763, // sll
    1307, // sra
    9931, // srl
    2700625023, // subtype
    440, // to
    123024, // type
    44474227919149, // unaffected
    12124973, // units
    7589533, // until
    4473, // use
    73282573330, // variable
    446147, // wait
    311495, // when
    3344007, // while
    191571, // with
];

// 1 to 26 for a letter in either case, and 27 for any other byte.
fn letter(byte: u8) -> u64
    ensures { (result ≡ letter_of byte) × (result < 28) }
{
    match byte {
        b'A'..=b'Z' => (byte - 64) as u64,
        b'a'..=b'z' => (byte - 96) as u64,
        _ => 27,
    }
}

// The word as a number in base 28. No word of the vocabulary has more than 13 letters, and so many fit.
fn code_of(word: &[u8]) -> u64
    requires { length word.now ≤ 13 }
    ensures { result ≡ code_of word.now }
{
    let mut code: u64 = 0;
    for byte in word.iter().rev() {
        code = code * 28 + letter(*byte);
    }
    code
}

// The row of a word's number.
fn find(code: u64) -> Option<usize>
    ensures { result ≡ position (λ c. eqb c code) codes }
{
    CODES.iter().position(|row| *row == code)
}

// The number of the row that a word stands in, 0 to 107; none for a name.
pub fn row_of(word: &[u8]) -> Option<usize>
    ensures { result ≡ row_of word.now }
{
    if word.len() > 13 {
        None
    } else {
        find(code_of(word))
    }
}

// A byte, in lower case where it is a letter.
pub fn lower(byte: u8) -> u8
    ensures { result ≡ lower_of byte }
{
    byte.to_ascii_lowercase()
}

// Two bytes are the same, up to the case of a letter. Most bytes are the same in their case too, so the case is looked at only where they are not.
fn same_byte(one: u8, other: u8) -> bool
    ensures { result ≡ eqb (lower_of one) (lower_of other) }
{
    one == other || lower(one) == lower(other)
}

// Two words are the same, up to the case of their letters. Names that are alike mostly differ at their ends, so it goes from the last byte to the first.
pub fn same_word(one: &[u8], other: &[u8]) -> bool
    ensures { result ≡ same_word one.now other.now }
{
    one.len() == other.len()
        && one
            .iter()
            .rev()
            .zip(other.iter().rev())
            .all(|(a, b)| same_byte(*a, *b))
}
