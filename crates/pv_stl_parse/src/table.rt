//! The table of STL's grammar, for a text that is a source.
ghost use Rattle.std.specs.Prelude.{◌≡◌, IsTrue};
ghost use Rattle.pv_ll.specs.Check.{is_ll1};
ghost use Rattle.pv_ll.specs.Table.{grammar_of};
ghost use Rattle.pv_stl_parse.specs.StlGrammar.{stl_grammar};

use pv_ll::{Alternative, Language, Rule, Symbol};

// Written by tools/grammar_files.py from crates/pv_stl_parse/grammar/stl.txt.
const RULES: [Rule; 106] = [
    // word
    Rule {
        nullable: false,
        first: 0x1ffe01,
        follow: 0x55000ffdfedffe33,
        weight: 2,
        from: 0,
        to: 5,
    },
    // label_word
    Rule {
        nullable: false,
        first: 0x1fe01,
        follow: 0x55000ffdfedffe33,
        weight: 1,
        from: 5,
        to: 14,
    },
    // firm_name
    Rule {
        nullable: false,
        first: 0x32,
        follow: 0x55000ffdfe5ffe33,
        weight: 1,
        from: 14,
        to: 17,
    },
    // field
    Rule {
        nullable: false,
        first: 0xc0,
        follow: 0xffddc400000,
        weight: 1,
        from: 17,
        to: 19,
    },
    // expression
    Rule {
        nullable: false,
        first: 0x7f00e021ffe3f,
        follow: 0x94000000,
        weight: 11,
        from: 19,
        to: 20,
    },
    // or_tail
    Rule {
        nullable: true,
        first: 0x80000000000,
        follow: 0x94000000,
        weight: 2,
        from: 20,
        to: 22,
    },
    // or_link
    Rule {
        nullable: false,
        first: 0x80000000000,
        follow: 0x80094000000,
        weight: 1,
        from: 22,
        to: 23,
    },
    // xor_chain
    Rule {
        nullable: false,
        first: 0x7f00e021ffe3f,
        follow: 0x80094000000,
        weight: 10,
        from: 23,
        to: 24,
    },
    // xor_tail
    Rule {
        nullable: true,
        first: 0x40000000000,
        follow: 0x80094000000,
        weight: 2,
        from: 24,
        to: 26,
    },
    // xor_link
    Rule {
        nullable: false,
        first: 0x40000000000,
        follow: 0xc0094000000,
        weight: 1,
        from: 26,
        to: 27,
    },
    // and_chain
    Rule {
        nullable: false,
        first: 0x7f00e021ffe3f,
        follow: 0xc0094000000,
        weight: 9,
        from: 27,
        to: 28,
    },
    // and_tail
    Rule {
        nullable: true,
        first: 0x20000000000,
        follow: 0xc0094000000,
        weight: 2,
        from: 28,
        to: 30,
    },
    // and_link
    Rule {
        nullable: false,
        first: 0x20000000000,
        follow: 0xe0094000000,
        weight: 1,
        from: 30,
        to: 31,
    },
    // equal_chain
    Rule {
        nullable: false,
        first: 0x7f00e021ffe3f,
        follow: 0xe0094000000,
        weight: 8,
        from: 31,
        to: 32,
    },
    // equal_tail
    Rule {
        nullable: true,
        first: 0x18000000000,
        follow: 0xe0094000000,
        weight: 2,
        from: 32,
        to: 34,
    },
    // equal_link
    Rule {
        nullable: false,
        first: 0x18000000000,
        follow: 0xf8094000000,
        weight: 1,
        from: 34,
        to: 36,
    },
    // compare_chain
    Rule {
        nullable: false,
        first: 0x7f00e021ffe3f,
        follow: 0xf8094000000,
        weight: 7,
        from: 36,
        to: 37,
    },
    // compare_tail
    Rule {
        nullable: true,
        first: 0x4000000000,
        follow: 0xf8094000000,
        weight: 2,
        from: 37,
        to: 39,
    },
    // compare_link
    Rule {
        nullable: false,
        first: 0x4000000000,
        follow: 0xfc094000000,
        weight: 1,
        from: 39,
        to: 40,
    },
    // sum_chain
    Rule {
        nullable: false,
        first: 0x7f00e021ffe3f,
        follow: 0xfc094000000,
        weight: 6,
        from: 40,
        to: 41,
    },
    // sum_tail
    Rule {
        nullable: true,
        first: 0xc00000000,
        follow: 0xfc094000000,
        weight: 2,
        from: 41,
        to: 43,
    },
    // sum_link
    Rule {
        nullable: false,
        first: 0xc00000000,
        follow: 0xfcc94000000,
        weight: 1,
        from: 43,
        to: 45,
    },
    // product_chain
    Rule {
        nullable: false,
        first: 0x7f00e021ffe3f,
        follow: 0xfcc94000000,
        weight: 5,
        from: 45,
        to: 46,
    },
    // product_tail
    Rule {
        nullable: true,
        first: 0x3000000000,
        follow: 0xfcc94000000,
        weight: 2,
        from: 46,
        to: 48,
    },
    // product_link
    Rule {
        nullable: false,
        first: 0x3000000000,
        follow: 0xffc94000000,
        weight: 1,
        from: 48,
        to: 50,
    },
    // factor
    Rule {
        nullable: false,
        first: 0x7f00e021ffe3f,
        follow: 0xffc94000000,
        weight: 4,
        from: 50,
        to: 52,
    },
    // word_read
    Rule {
        nullable: false,
        first: 0x1ffe01,
        follow: 0xffc94000000,
        weight: 3,
        from: 52,
        to: 53,
    },
    // other_factor
    Rule {
        nullable: false,
        first: 0x7f00e0200003e,
        follow: 0xffc94000000,
        weight: 3,
        from: 53,
        to: 55,
    },
    // name_read
    Rule {
        nullable: false,
        first: 0x200000032,
        follow: 0xffc94000000,
        weight: 2,
        from: 55,
        to: 57,
    },
    // firm_factor
    Rule {
        nullable: false,
        first: 0x7f00c0200000c,
        follow: 0xffc94000000,
        weight: 2,
        from: 57,
        to: 65,
    },
    // function
    Rule {
        nullable: false,
        first: 0x7c00000000000,
        follow: 0xffc94000000,
        weight: 1,
        from: 65,
        to: 70,
    },
    // steps
    Rule {
        nullable: true,
        first: 0x108000000,
        follow: 0xffcd4000000,
        weight: 2,
        from: 70,
        to: 72,
    },
    // step
    Rule {
        nullable: false,
        first: 0x108000000,
        follow: 0xffddc000000,
        weight: 1,
        from: 72,
        to: 74,
    },
    // area
    Rule {
        nullable: false,
        first: 0x8,
        follow: 0xffddc000000,
        weight: 1,
        from: 74,
        to: 75,
    },
    // source
    Rule {
        nullable: true,
        first: 0xaa8000000000000000,
        follow: 0x800000000000000000000000,
        weight: 4,
        from: 75,
        to: 76,
    },
    // new_source
    Rule {
        nullable: true,
        first: 0x0,
        follow: 0x800000aa8000000000000000,
        weight: 1,
        from: 76,
        to: 77,
    },
    // blocks
    Rule {
        nullable: true,
        first: 0xaa8000000000000000,
        follow: 0x800000000000000000000000,
        weight: 2,
        from: 77,
        to: 79,
    },
    // block
    Rule {
        nullable: false,
        first: 0xaa8000000000000000,
        follow: 0x800000aa8000000000000000,
        weight: 1,
        from: 79,
        to: 84,
    },
    // block_name
    Rule {
        nullable: false,
        first: 0x1ffe33,
        follow: 0x55000000201ffe33,
        weight: 4,
        from: 84,
        to: 85,
    },
    // name
    Rule {
        nullable: false,
        first: 0x1ffe33,
        follow: 0x55000000605ffe33,
        weight: 3,
        from: 85,
        to: 87,
    },
    // value_type
    Rule {
        nullable: false,
        first: 0x28000000000000,
        follow: 0x5400000000000000,
        weight: 1,
        from: 87,
        to: 89,
    },
    // sections
    Rule {
        nullable: true,
        first: 0x1400000000000000,
        follow: 0x4000000000000000,
        weight: 3,
        from: 89,
        to: 91,
    },
    // section
    Rule {
        nullable: false,
        first: 0x1400000000000000,
        follow: 0x5400000000000000,
        weight: 2,
        from: 91,
        to: 93,
    },
    // section_head
    Rule {
        nullable: false,
        first: 0x400000000000000,
        follow: 0x8000000001ffe01,
        weight: 1,
        from: 93,
        to: 94,
    },
    // const_head
    Rule {
        nullable: false,
        first: 0x1000000000000000,
        follow: 0x20000000001ffe01,
        weight: 1,
        from: 94,
        to: 95,
    },
    // constants
    Rule {
        nullable: true,
        first: 0x1ffe01,
        follow: 0x2000000000000000,
        weight: 4,
        from: 95,
        to: 97,
    },
    // constant
    Rule {
        nullable: false,
        first: 0x1ffe01,
        follow: 0x20000000001ffe01,
        weight: 3,
        from: 97,
        to: 98,
    },
    // declarations
    Rule {
        nullable: true,
        first: 0x1ffe01,
        follow: 0xa00000000000000,
        weight: 4,
        from: 98,
        to: 100,
    },
    // first_word
    Rule {
        nullable: false,
        first: 0x1ffe01,
        follow: 0xa0000000,
        weight: 3,
        from: 100,
        to: 101,
    },
    // declared_words
    Rule {
        nullable: false,
        first: 0xa0000000,
        follow: 0xa00000000000000,
        weight: 3,
        from: 101,
        to: 103,
    },
    // next_word
    Rule {
        nullable: false,
        first: 0x80000000,
        follow: 0xa0000000,
        weight: 1,
        from: 103,
        to: 104,
    },
    // declared
    Rule {
        nullable: false,
        first: 0x20000000,
        follow: 0xa000000001ffe01,
        weight: 2,
        from: 104,
        to: 105,
    },
    // type_head
    Rule {
        nullable: false,
        first: 0x20000000,
        follow: 0x1580000001ffe33,
        weight: 1,
        from: 105,
        to: 106,
    },
    // declared_type
    Rule {
        nullable: false,
        first: 0x1580000001ffe33,
        follow: 0x40400000,
        weight: 4,
        from: 106,
        to: 111,
    },
    // array_head
    Rule {
        nullable: false,
        first: 0x40000000000000,
        follow: 0x1580000001ffe33,
        weight: 1,
        from: 111,
        to: 112,
    },
    // struct
    Rule {
        nullable: false,
        first: 0x100000000000000,
        follow: 0x40400000,
        weight: 2,
        from: 112,
        to: 113,
    },
    // struct_head
    Rule {
        nullable: false,
        first: 0x100000000000000,
        follow: 0x2000000001ffe01,
        weight: 1,
        from: 113,
        to: 114,
    },
    // own_fields
    Rule {
        nullable: false,
        first: 0x100000000000000,
        follow: 0x1004000000000000000,
        weight: 2,
        from: 114,
        to: 115,
    },
    // own_head
    Rule {
        nullable: false,
        first: 0x100000000000000,
        follow: 0x2000000001ffe01,
        weight: 1,
        from: 115,
        to: 116,
    },
    // start_value
    Rule {
        nullable: true,
        first: 0x400000,
        follow: 0x40000000,
        weight: 1,
        from: 116,
        to: 118,
    },
    // maybe_semicolon
    Rule {
        nullable: true,
        first: 0x40000000,
        follow: 0x1004000000000000000,
        weight: 1,
        from: 118,
        to: 120,
    },
    // literal
    Rule {
        nullable: false,
        first: 0x200800000004,
        follow: 0x40000000,
        weight: 2,
        from: 120,
        to: 122,
    },
    // integer
    Rule {
        nullable: false,
        first: 0x800000004,
        follow: 0x51000000,
        weight: 1,
        from: 122,
        to: 124,
    },
    // data_type
    Rule {
        nullable: false,
        first: 0x1000000001ffe33,
        follow: 0x4000000000000000,
        weight: 4,
        from: 124,
        to: 126,
    },
    // data_head
    Rule {
        nullable: false,
        first: 0x4000000000000000,
        follow: 0x4000000000001ffe01,
        weight: 1,
        from: 126,
        to: 127,
    },
    // data_values
    Rule {
        nullable: true,
        first: 0x1ffe01,
        follow: 0x400000000000000000,
        weight: 4,
        from: 127,
        to: 129,
    },
    // data_value
    Rule {
        nullable: false,
        first: 0x1ffe01,
        follow: 0x4000000000001ffe01,
        weight: 3,
        from: 129,
        to: 130,
    },
    // path_steps
    Rule {
        nullable: true,
        first: 0x108000000,
        follow: 0x400000,
        weight: 2,
        from: 130,
        to: 132,
    },
    // path_step
    Rule {
        nullable: false,
        first: 0x108000000,
        follow: 0x108400000,
        weight: 1,
        from: 132,
        to: 134,
    },
    // plain_hash
    Rule {
        nullable: true,
        first: 0x0,
        follow: 0x1ca000000,
        weight: 1,
        from: 134,
        to: 135,
    },
    // quoted_hash
    Rule {
        nullable: true,
        first: 0x0,
        follow: 0xc2000000,
        weight: 1,
        from: 135,
        to: 136,
    },
    // numbered_hash
    Rule {
        nullable: false,
        first: 0x4,
        follow: 0xc2000000,
        weight: 1,
        from: 136,
        to: 137,
    },
    // first_argument
    Rule {
        nullable: false,
        first: 0xc00000,
        follow: 0x84000000,
        weight: 2,
        from: 137,
        to: 138,
    },
    // argument_value
    Rule {
        nullable: false,
        first: 0xc00000,
        follow: 0x84000000,
        weight: 1,
        from: 138,
        to: 140,
    },
    // more_arguments
    Rule {
        nullable: true,
        first: 0x80000000,
        follow: 0x4000000,
        weight: 2,
        from: 140,
        to: 142,
    },
    // next_argument
    Rule {
        nullable: false,
        first: 0x80000000,
        follow: 0x84000000,
        weight: 1,
        from: 142,
        to: 143,
    },
    // body
    Rule {
        nullable: false,
        first: 0x4000000000000000,
        follow: 0x150000000000000000,
        weight: 1,
        from: 143,
        to: 144,
    },
    // data_body
    Rule {
        nullable: false,
        first: 0x4000000000000000,
        follow: 0x400000000000000000,
        weight: 2,
        from: 144,
        to: 145,
    },
    // new_code
    Rule {
        nullable: true,
        first: 0x0,
        follow: 0x38000015000010a0043ffe01,
        weight: 1,
        from: 145,
        to: 146,
    },
    // instructions
    Rule {
        nullable: true,
        first: 0x38000000000010a0043ffe01,
        follow: 0x150000000000000000,
        weight: 5,
        from: 146,
        to: 148,
    },
    // instruction
    Rule {
        nullable: false,
        first: 0x38000000000010a0043ffe01,
        follow: 0x38000015000010a0043ffe01,
        weight: 4,
        from: 148,
        to: 150,
    },
    // no_label
    Rule {
        nullable: true,
        first: 0x0,
        follow: 0x30000000000010a0043ffe01,
        weight: 1,
        from: 150,
        to: 151,
    },
    // labelled
    Rule {
        nullable: false,
        first: 0x30000000000010a0043ffe01,
        follow: 0x40000000,
        weight: 2,
        from: 151,
        to: 157,
    },
    // label
    Rule {
        nullable: false,
        first: 0x20000000,
        follow: 0x30000000000010a0043e0000,
        weight: 1,
        from: 157,
        to: 158,
    },
    // after_bit_op
    Rule {
        nullable: false,
        first: 0x200a221ffe3f,
        follow: 0x40000000,
        weight: 6,
        from: 158,
        to: 160,
    },
    // after_or_op
    Rule {
        nullable: true,
        first: 0x200a221ffe3f,
        follow: 0x40000000,
        weight: 7,
        from: 160,
        to: 162,
    },
    // after_value_op
    Rule {
        nullable: false,
        first: 0x200a201ffe3f,
        follow: 0x40000000,
        weight: 5,
        from: 162,
        to: 164,
    },
    // after_free_op
    Rule {
        nullable: true,
        first: 0x200a201ffe3f,
        follow: 0x40000000,
        weight: 6,
        from: 164,
        to: 166,
    },
    // operation
    Rule {
        nullable: false,
        first: 0x30000000000010a0043e0000,
        follow: 0x40000000,
        weight: 2,
        from: 166,
        to: 171,
    },
    // firm_operation
    Rule {
        nullable: false,
        first: 0x30000000000010a004200000,
        follow: 0x40000000,
        weight: 1,
        from: 171,
        to: 178,
    },
    // bit_operand
    Rule {
        nullable: false,
        first: 0x200a021ffe3f,
        follow: 0x40000000,
        weight: 5,
        from: 178,
        to: 180,
    },
    // or_operand
    Rule {
        nullable: true,
        first: 0x200a021ffe3f,
        follow: 0x40000000,
        weight: 6,
        from: 180,
        to: 182,
    },
    // opening
    Rule {
        nullable: false,
        first: 0x2000000,
        follow: 0x40000000,
        weight: 1,
        from: 182,
        to: 183,
    },
    // maybe_value
    Rule {
        nullable: true,
        first: 0x200a001ffe3f,
        follow: 0x40000000,
        weight: 5,
        from: 183,
        to: 185,
    },
    // value
    Rule {
        nullable: false,
        first: 0x200a001ffe3f,
        follow: 0x40000000,
        weight: 4,
        from: 185,
        to: 187,
    },
    // operand
    Rule {
        nullable: false,
        first: 0x2001ffe3b,
        follow: 0x40000000,
        weight: 3,
        from: 187,
        to: 191,
    },
    // hashed_word
    Rule {
        nullable: false,
        first: 0xc0,
        follow: 0x148000000,
        weight: 1,
        from: 191,
        to: 193,
    },
    // number_value
    Rule {
        nullable: false,
        first: 0x200800000004,
        follow: 0x40000000,
        weight: 1,
        from: 193,
        to: 196,
    },
    // called_name
    Rule {
        nullable: false,
        first: 0x2001ffe33,
        follow: 0xc2000000,
        weight: 4,
        from: 196,
        to: 198,
    },
    // plain_called
    Rule {
        nullable: false,
        first: 0x1ffe33,
        follow: 0xc2000000,
        weight: 3,
        from: 198,
        to: 200,
    },
    // hashed_name
    Rule {
        nullable: false,
        first: 0x1c2,
        follow: 0xc2000000,
        weight: 1,
        from: 200,
        to: 204,
    },
    // hashed_prefix
    Rule {
        nullable: true,
        first: 0x4,
        follow: 0xc2000000,
        weight: 2,
        from: 204,
        to: 206,
    },
    // base
    Rule {
        nullable: true,
        first: 0x80000000,
        follow: 0x42000000,
        weight: 2,
        from: 206,
        to: 208,
    },
    // base_name
    Rule {
        nullable: false,
        first: 0x80000000,
        follow: 0x42000000,
        weight: 1,
        from: 208,
        to: 209,
    },
    // call_arguments
    Rule {
        nullable: true,
        first: 0x2000000,
        follow: 0x40000000,
        weight: 2,
        from: 209,
        to: 211,
    },
    // bare_call
    Rule {
        nullable: true,
        first: 0x0,
        follow: 0x40000000,
        weight: 1,
        from: 211,
        to: 212,
    },
];

const ALTERNATIVES: [Alternative; 212] = [
    // word = label_word
    Alternative {
        name: 0,
        when: 0x1fe01,
        from: 0,
        to: 1,
    },
    // word = bit_op
    Alternative {
        name: 0,
        when: 0x20000,
        from: 1,
        to: 2,
    },
    // word = or_op
    Alternative {
        name: 0,
        when: 0x40000,
        from: 2,
        to: 3,
    },
    // word = value_op
    Alternative {
        name: 0,
        when: 0x80000,
        from: 3,
        to: 4,
    },
    // word = free_op
    Alternative {
        name: 0,
        when: 0x100000,
        from: 4,
        to: 5,
    },
    // label_word = plain
    Alternative {
        name: 1,
        when: 0x1,
        from: 5,
        to: 6,
    },
    // label_word = in_word
    Alternative {
        name: 1,
        when: 0x200,
        from: 6,
        to: 7,
    },
    // label_word = in0_word
    Alternative {
        name: 1,
        when: 0x400,
        from: 7,
        to: 8,
    },
    // label_word = in1_word
    Alternative {
        name: 1,
        when: 0x800,
        from: 8,
        to: 9,
    },
    // label_word = in2_word
    Alternative {
        name: 1,
        when: 0x1000,
        from: 9,
        to: 10,
    },
    // label_word = mn_word
    Alternative {
        name: 1,
        when: 0x2000,
        from: 10,
        to: 11,
    },
    // label_word = mx_word
    Alternative {
        name: 1,
        when: 0x4000,
        from: 11,
        to: 12,
    },
    // label_word = g_word
    Alternative {
        name: 1,
        when: 0x8000,
        from: 12,
        to: 13,
    },
    // label_word = n_word
    Alternative {
        name: 1,
        when: 0x10000,
        from: 13,
        to: 14,
    },
    // firm_name = quoted
    Alternative {
        name: 2,
        when: 0x2,
        from: 14,
        to: 15,
    },
    // firm_name = number_prefix number
    Alternative {
        name: 2,
        when: 0x10,
        from: 15,
        to: 17,
    },
    // firm_name = numbered
    Alternative {
        name: 2,
        when: 0x20,
        from: 17,
        to: 18,
    },
    // field = free_word
    Alternative {
        name: 3,
        when: 0x40,
        from: 18,
        to: 19,
    },
    // field = free_prefix
    Alternative {
        name: 3,
        when: 0x80,
        from: 19,
        to: 20,
    },
    // expression = xor_chain or_tail
    Alternative {
        name: 4,
        when: 0x7f00e021ffe3f,
        from: 20,
        to: 22,
    },
    // or_tail = or_link or_tail
    Alternative {
        name: 5,
        when: 0x80000000000,
        from: 22,
        to: 24,
    },
    // or_tail =
    Alternative {
        name: 5,
        when: 0x94000000,
        from: 24,
        to: 24,
    },
    // or_link = or_word xor_chain
    Alternative {
        name: 6,
        when: 0x80000000000,
        from: 24,
        to: 26,
    },
    // xor_chain = and_chain xor_tail
    Alternative {
        name: 7,
        when: 0x7f00e021ffe3f,
        from: 26,
        to: 28,
    },
    // xor_tail = xor_link xor_tail
    Alternative {
        name: 8,
        when: 0x40000000000,
        from: 28,
        to: 30,
    },
    // xor_tail =
    Alternative {
        name: 8,
        when: 0x80094000000,
        from: 30,
        to: 30,
    },
    // xor_link = xor_word and_chain
    Alternative {
        name: 9,
        when: 0x40000000000,
        from: 30,
        to: 32,
    },
    // and_chain = equal_chain and_tail
    Alternative {
        name: 10,
        when: 0x7f00e021ffe3f,
        from: 32,
        to: 34,
    },
    // and_tail = and_link and_tail
    Alternative {
        name: 11,
        when: 0x20000000000,
        from: 34,
        to: 36,
    },
    // and_tail =
    Alternative {
        name: 11,
        when: 0xc0094000000,
        from: 36,
        to: 36,
    },
    // and_link = and_word equal_chain
    Alternative {
        name: 12,
        when: 0x20000000000,
        from: 36,
        to: 38,
    },
    // equal_chain = compare_chain equal_tail
    Alternative {
        name: 13,
        when: 0x7f00e021ffe3f,
        from: 38,
        to: 40,
    },
    // equal_tail = equal_link equal_tail
    Alternative {
        name: 14,
        when: 0x18000000000,
        from: 40,
        to: 42,
    },
    // equal_tail =
    Alternative {
        name: 14,
        when: 0xe0094000000,
        from: 42,
        to: 42,
    },
    // equal_link = equals compare_chain
    Alternative {
        name: 15,
        when: 0x8000000000,
        from: 42,
        to: 44,
    },
    // equal_link = unequal compare_chain
    Alternative {
        name: 15,
        when: 0x10000000000,
        from: 44,
        to: 46,
    },
    // compare_chain = sum_chain compare_tail
    Alternative {
        name: 16,
        when: 0x7f00e021ffe3f,
        from: 46,
        to: 48,
    },
    // compare_tail = compare_link compare_tail
    Alternative {
        name: 17,
        when: 0x4000000000,
        from: 48,
        to: 50,
    },
    // compare_tail =
    Alternative {
        name: 17,
        when: 0xf8094000000,
        from: 50,
        to: 50,
    },
    // compare_link = compare_sign sum_chain
    Alternative {
        name: 18,
        when: 0x4000000000,
        from: 50,
        to: 52,
    },
    // sum_chain = product_chain sum_tail
    Alternative {
        name: 19,
        when: 0x7f00e021ffe3f,
        from: 52,
        to: 54,
    },
    // sum_tail = sum_link sum_tail
    Alternative {
        name: 20,
        when: 0xc00000000,
        from: 54,
        to: 56,
    },
    // sum_tail =
    Alternative {
        name: 20,
        when: 0xfc094000000,
        from: 56,
        to: 56,
    },
    // sum_link = plus product_chain
    Alternative {
        name: 21,
        when: 0x400000000,
        from: 56,
        to: 58,
    },
    // sum_link = minus product_chain
    Alternative {
        name: 21,
        when: 0x800000000,
        from: 58,
        to: 60,
    },
    // product_chain = factor product_tail
    Alternative {
        name: 22,
        when: 0x7f00e021ffe3f,
        from: 60,
        to: 62,
    },
    // product_tail = product_link product_tail
    Alternative {
        name: 23,
        when: 0x3000000000,
        from: 62,
        to: 64,
    },
    // product_tail =
    Alternative {
        name: 23,
        when: 0xfcc94000000,
        from: 64,
        to: 64,
    },
    // product_link = times factor
    Alternative {
        name: 24,
        when: 0x1000000000,
        from: 64,
        to: 66,
    },
    // product_link = mod_word factor
    Alternative {
        name: 24,
        when: 0x2000000000,
        from: 66,
        to: 68,
    },
    // factor = word_read
    Alternative {
        name: 25,
        when: 0x1ffe01,
        from: 68,
        to: 69,
    },
    // factor = other_factor
    Alternative {
        name: 25,
        when: 0x7f00e0200003e,
        from: 69,
        to: 70,
    },
    // word_read = word steps
    Alternative {
        name: 26,
        when: 0x1ffe01,
        from: 70,
        to: 72,
    },
    // other_factor = name_read
    Alternative {
        name: 27,
        when: 0x200000032,
        from: 72,
        to: 73,
    },
    // other_factor = firm_factor
    Alternative {
        name: 27,
        when: 0x7f00c0200000c,
        from: 73,
        to: 74,
    },
    // name_read = hash field steps
    Alternative {
        name: 28,
        when: 0x200000000,
        from: 74,
        to: 77,
    },
    // name_read = firm_name steps
    Alternative {
        name: 28,
        when: 0x32,
        from: 77,
        to: 79,
    },
    // firm_factor = area steps
    Alternative {
        name: 29,
        when: 0x8,
        from: 79,
        to: 81,
    },
    // firm_factor = number
    Alternative {
        name: 29,
        when: 0x4,
        from: 81,
        to: 82,
    },
    // firm_factor = truth
    Alternative {
        name: 29,
        when: 0x200000000000,
        from: 82,
        to: 83,
    },
    // firm_factor = paren_open expression paren_close
    Alternative {
        name: 29,
        when: 0x2000000,
        from: 83,
        to: 86,
    },
    // firm_factor = function
    Alternative {
        name: 29,
        when: 0x7c00000000000,
        from: 86,
        to: 87,
    },
    // firm_factor = plus factor
    Alternative {
        name: 29,
        when: 0x400000000,
        from: 87,
        to: 89,
    },
    // firm_factor = minus factor
    Alternative {
        name: 29,
        when: 0x800000000,
        from: 89,
        to: 91,
    },
    // firm_factor = not_word factor
    Alternative {
        name: 29,
        when: 0x100000000000,
        from: 91,
        to: 93,
    },
    // function = one_function paren_open expression paren_close
    Alternative {
        name: 30,
        when: 0x400000000000,
        from: 93,
        to: 97,
    },
    // function = two_function paren_open in1_word assign expression comma in2_word assign expression paren_close
    Alternative {
        name: 30,
        when: 0x800000000000,
        from: 97,
        to: 107,
    },
    // function = limit_function paren_open mn_word assign expression comma in_word assign expression comma mx_word assign expression paren_close
    Alternative {
        name: 30,
        when: 0x1000000000000,
        from: 107,
        to: 121,
    },
    // function = sel_function paren_open g_word assign expression comma in0_word assign expression comma in1_word assign expression paren_close
    Alternative {
        name: 30,
        when: 0x2000000000000,
        from: 121,
        to: 135,
    },
    // function = shift_function paren_open in_word assign expression comma n_word assign expression paren_close
    Alternative {
        name: 30,
        when: 0x4000000000000,
        from: 135,
        to: 145,
    },
    // steps = step steps
    Alternative {
        name: 31,
        when: 0x108000000,
        from: 145,
        to: 147,
    },
    // steps =
    Alternative {
        name: 31,
        when: 0xffcd4000000,
        from: 147,
        to: 147,
    },
    // step = dot field
    Alternative {
        name: 32,
        when: 0x100000000,
        from: 147,
        to: 149,
    },
    // step = bracket_open expression bracket_close
    Alternative {
        name: 32,
        when: 0x8000000,
        from: 149,
        to: 152,
    },
    // area = address
    Alternative {
        name: 33,
        when: 0x8,
        from: 152,
        to: 153,
    },
    // source = new_source blocks
    Alternative {
        name: 34,
        when: 0x800000aa8000000000000000,
        from: 153,
        to: 155,
    },
    // new_source =
    Alternative {
        name: 35,
        when: 0x800000aa8000000000000000,
        from: 155,
        to: 155,
    },
    // blocks = block blocks
    Alternative {
        name: 36,
        when: 0xaa8000000000000000,
        from: 155,
        to: 157,
    },
    // blocks =
    Alternative {
        name: 36,
        when: 0x800000000000000000000000,
        from: 157,
        to: 157,
    },
    // block = function_block block_name sections body end_function_block
    Alternative {
        name: 37,
        when: 0x8000000000000000,
        from: 157,
        to: 162,
    },
    // block = function_word block_name colon value_type sections body end_function
    Alternative {
        name: 37,
        when: 0x20000000000000000,
        from: 162,
        to: 169,
    },
    // block = organization_block block_name sections body end_organization_block
    Alternative {
        name: 37,
        when: 0x80000000000000000,
        from: 169,
        to: 174,
    },
    // block = data_block block_name data_type data_body end_data_block
    Alternative {
        name: 37,
        when: 0x200000000000000000,
        from: 174,
        to: 179,
    },
    // block = type_word block_name own_fields end_type
    Alternative {
        name: 37,
        when: 0x800000000000000000,
        from: 179,
        to: 183,
    },
    // block_name = name
    Alternative {
        name: 38,
        when: 0x1ffe33,
        from: 183,
        to: 184,
    },
    // name = word
    Alternative {
        name: 39,
        when: 0x1ffe01,
        from: 184,
        to: 185,
    },
    // name = firm_name
    Alternative {
        name: 39,
        when: 0x32,
        from: 185,
        to: 186,
    },
    // value_type = simple_type
    Alternative {
        name: 40,
        when: 0x8000000000000,
        from: 186,
        to: 187,
    },
    // value_type = void_word
    Alternative {
        name: 40,
        when: 0x20000000000000,
        from: 187,
        to: 188,
    },
    // sections = section sections
    Alternative {
        name: 41,
        when: 0x1400000000000000,
        from: 188,
        to: 190,
    },
    // sections =
    Alternative {
        name: 41,
        when: 0x4000000000000000,
        from: 190,
        to: 190,
    },
    // section = section_head declarations end_var
    Alternative {
        name: 42,
        when: 0x400000000000000,
        from: 190,
        to: 193,
    },
    // section = const_head constants end_const
    Alternative {
        name: 42,
        when: 0x1000000000000000,
        from: 193,
        to: 196,
    },
    // section_head = section_word
    Alternative {
        name: 43,
        when: 0x400000000000000,
        from: 196,
        to: 197,
    },
    // const_head = const_word
    Alternative {
        name: 44,
        when: 0x1000000000000000,
        from: 197,
        to: 198,
    },
    // constants = constant constants
    Alternative {
        name: 45,
        when: 0x1ffe01,
        from: 198,
        to: 200,
    },
    // constants =
    Alternative {
        name: 45,
        when: 0x2000000000000000,
        from: 200,
        to: 200,
    },
    // constant = word assign literal semicolon
    Alternative {
        name: 46,
        when: 0x1ffe01,
        from: 200,
        to: 204,
    },
    // declarations = first_word declared_words
    Alternative {
        name: 47,
        when: 0x1ffe01,
        from: 204,
        to: 206,
    },
    // declarations =
    Alternative {
        name: 47,
        when: 0xa00000000000000,
        from: 206,
        to: 206,
    },
    // first_word = word
    Alternative {
        name: 48,
        when: 0x1ffe01,
        from: 206,
        to: 207,
    },
    // declared_words = next_word declared_words
    Alternative {
        name: 49,
        when: 0x80000000,
        from: 207,
        to: 209,
    },
    // declared_words = declared declarations
    Alternative {
        name: 49,
        when: 0x20000000,
        from: 209,
        to: 211,
    },
    // next_word = comma word
    Alternative {
        name: 50,
        when: 0x80000000,
        from: 211,
        to: 213,
    },
    // declared = type_head declared_type start_value semicolon
    Alternative {
        name: 51,
        when: 0x20000000,
        from: 213,
        to: 217,
    },
    // type_head = colon
    Alternative {
        name: 52,
        when: 0x20000000,
        from: 217,
        to: 218,
    },
    // declared_type = simple_type
    Alternative {
        name: 53,
        when: 0x8000000000000,
        from: 218,
        to: 219,
    },
    // declared_type = date_and_time
    Alternative {
        name: 53,
        when: 0x10000000000000,
        from: 219,
        to: 220,
    },
    // declared_type = name
    Alternative {
        name: 53,
        when: 0x1ffe33,
        from: 220,
        to: 221,
    },
    // declared_type = struct
    Alternative {
        name: 53,
        when: 0x100000000000000,
        from: 221,
        to: 222,
    },
    // declared_type = array_head declared_type
    Alternative {
        name: 53,
        when: 0x40000000000000,
        from: 222,
        to: 224,
    },
    // array_head = array_word bracket_open integer dots integer bracket_close of_word
    Alternative {
        name: 54,
        when: 0x40000000000000,
        from: 224,
        to: 231,
    },
    // struct = struct_head declarations end_struct
    Alternative {
        name: 55,
        when: 0x100000000000000,
        from: 231,
        to: 234,
    },
    // struct_head = struct_word
    Alternative {
        name: 56,
        when: 0x100000000000000,
        from: 234,
        to: 235,
    },
    // own_fields = own_head declarations end_struct maybe_semicolon
    Alternative {
        name: 57,
        when: 0x100000000000000,
        from: 235,
        to: 239,
    },
    // own_head = struct_word
    Alternative {
        name: 58,
        when: 0x100000000000000,
        from: 239,
        to: 240,
    },
    // start_value = assign literal
    Alternative {
        name: 59,
        when: 0x400000,
        from: 240,
        to: 242,
    },
    // start_value =
    Alternative {
        name: 59,
        when: 0x40000000,
        from: 242,
        to: 242,
    },
    // maybe_semicolon = semicolon
    Alternative {
        name: 60,
        when: 0x40000000,
        from: 242,
        to: 243,
    },
    // maybe_semicolon =
    Alternative {
        name: 60,
        when: 0x1004000000000000000,
        from: 243,
        to: 243,
    },
    // literal = integer
    Alternative {
        name: 61,
        when: 0x800000004,
        from: 243,
        to: 244,
    },
    // literal = truth
    Alternative {
        name: 61,
        when: 0x200000000000,
        from: 244,
        to: 245,
    },
    // integer = minus number
    Alternative {
        name: 62,
        when: 0x800000000,
        from: 245,
        to: 247,
    },
    // integer = number
    Alternative {
        name: 62,
        when: 0x4,
        from: 247,
        to: 248,
    },
    // data_type = name
    Alternative {
        name: 63,
        when: 0x1ffe33,
        from: 248,
        to: 249,
    },
    // data_type = own_fields
    Alternative {
        name: 63,
        when: 0x100000000000000,
        from: 249,
        to: 250,
    },
    // data_head = begin_word
    Alternative {
        name: 64,
        when: 0x4000000000000000,
        from: 250,
        to: 251,
    },
    // data_values = data_value data_values
    Alternative {
        name: 65,
        when: 0x1ffe01,
        from: 251,
        to: 253,
    },
    // data_values =
    Alternative {
        name: 65,
        when: 0x400000000000000000,
        from: 253,
        to: 253,
    },
    // data_value = word path_steps assign literal semicolon
    Alternative {
        name: 66,
        when: 0x1ffe01,
        from: 253,
        to: 258,
    },
    // path_steps = path_step path_steps
    Alternative {
        name: 67,
        when: 0x108000000,
        from: 258,
        to: 260,
    },
    // path_steps =
    Alternative {
        name: 67,
        when: 0x400000,
        from: 260,
        to: 260,
    },
    // path_step = dot field
    Alternative {
        name: 68,
        when: 0x100000000,
        from: 260,
        to: 262,
    },
    // path_step = bracket_open integer bracket_close
    Alternative {
        name: 68,
        when: 0x8000000,
        from: 262,
        to: 265,
    },
    // plain_hash =
    Alternative {
        name: 69,
        when: 0x1ca000000,
        from: 265,
        to: 265,
    },
    // quoted_hash =
    Alternative {
        name: 70,
        when: 0xc2000000,
        from: 265,
        to: 265,
    },
    // numbered_hash = number
    Alternative {
        name: 71,
        when: 0x4,
        from: 265,
        to: 266,
    },
    // first_argument = argument_value
    Alternative {
        name: 72,
        when: 0xc00000,
        from: 266,
        to: 267,
    },
    // argument_value = assign expression
    Alternative {
        name: 73,
        when: 0x400000,
        from: 267,
        to: 269,
    },
    // argument_value = arrow expression
    Alternative {
        name: 73,
        when: 0x800000,
        from: 269,
        to: 271,
    },
    // more_arguments = next_argument more_arguments
    Alternative {
        name: 74,
        when: 0x80000000,
        from: 271,
        to: 273,
    },
    // more_arguments =
    Alternative {
        name: 74,
        when: 0x4000000,
        from: 273,
        to: 273,
    },
    // next_argument = comma word argument_value
    Alternative {
        name: 75,
        when: 0x80000000,
        from: 273,
        to: 276,
    },
    // body = begin_word new_code instructions
    Alternative {
        name: 76,
        when: 0x4000000000000000,
        from: 276,
        to: 279,
    },
    // data_body = data_head data_values
    Alternative {
        name: 77,
        when: 0x4000000000000000,
        from: 279,
        to: 281,
    },
    // new_code =
    Alternative {
        name: 78,
        when: 0x38000015000010a0043ffe01,
        from: 281,
        to: 281,
    },
    // instructions = instruction instructions
    Alternative {
        name: 79,
        when: 0x38000000000010a0043ffe01,
        from: 281,
        to: 283,
    },
    // instructions =
    Alternative {
        name: 79,
        when: 0x150000000000000000,
        from: 283,
        to: 283,
    },
    // instruction = network_word
    Alternative {
        name: 80,
        when: 0x80000000000000000000000,
        from: 283,
        to: 284,
    },
    // instruction = no_label labelled semicolon
    Alternative {
        name: 80,
        when: 0x30000000000010a0043ffe01,
        from: 284,
        to: 287,
    },
    // no_label =
    Alternative {
        name: 81,
        when: 0x30000000000010a0043ffe01,
        from: 287,
        to: 287,
    },
    // labelled = label_word label operation
    Alternative {
        name: 82,
        when: 0x1fe01,
        from: 287,
        to: 290,
    },
    // labelled = bit_op after_bit_op
    Alternative {
        name: 82,
        when: 0x20000,
        from: 290,
        to: 292,
    },
    // labelled = or_op after_or_op
    Alternative {
        name: 82,
        when: 0x40000,
        from: 292,
        to: 294,
    },
    // labelled = value_op after_value_op
    Alternative {
        name: 82,
        when: 0x80000,
        from: 294,
        to: 296,
    },
    // labelled = free_op after_free_op
    Alternative {
        name: 82,
        when: 0x100000,
        from: 296,
        to: 298,
    },
    // labelled = firm_operation
    Alternative {
        name: 82,
        when: 0x30000000000010a004200000,
        from: 298,
        to: 299,
    },
    // label = colon
    Alternative {
        name: 83,
        when: 0x20000000,
        from: 299,
        to: 300,
    },
    // after_bit_op = label operation
    Alternative {
        name: 84,
        when: 0x20000000,
        from: 300,
        to: 302,
    },
    // after_bit_op = bit_operand
    Alternative {
        name: 84,
        when: 0x200a021ffe3f,
        from: 302,
        to: 303,
    },
    // after_or_op = label operation
    Alternative {
        name: 85,
        when: 0x20000000,
        from: 303,
        to: 305,
    },
    // after_or_op = or_operand
    Alternative {
        name: 85,
        when: 0x200a421ffe3f,
        from: 305,
        to: 306,
    },
    // after_value_op = label operation
    Alternative {
        name: 86,
        when: 0x20000000,
        from: 306,
        to: 308,
    },
    // after_value_op = value
    Alternative {
        name: 86,
        when: 0x200a001ffe3f,
        from: 308,
        to: 309,
    },
    // after_free_op = label operation
    Alternative {
        name: 87,
        when: 0x20000000,
        from: 309,
        to: 311,
    },
    // after_free_op = maybe_value
    Alternative {
        name: 87,
        when: 0x200a401ffe3f,
        from: 311,
        to: 312,
    },
    // operation = bit_op bit_operand
    Alternative {
        name: 88,
        when: 0x20000,
        from: 312,
        to: 314,
    },
    // operation = or_op or_operand
    Alternative {
        name: 88,
        when: 0x40000,
        from: 314,
        to: 316,
    },
    // operation = value_op value
    Alternative {
        name: 88,
        when: 0x80000,
        from: 316,
        to: 318,
    },
    // operation = free_op maybe_value
    Alternative {
        name: 88,
        when: 0x100000,
        from: 318,
        to: 320,
    },
    // operation = firm_operation
    Alternative {
        name: 88,
        when: 0x30000000000010a004200000,
        from: 320,
        to: 321,
    },
    // firm_operation = equals value
    Alternative {
        name: 89,
        when: 0x8000000000,
        from: 321,
        to: 323,
    },
    // firm_operation = stl_sign maybe_value
    Alternative {
        name: 89,
        when: 0x200000,
        from: 323,
        to: 325,
    },
    // firm_operation = paren_close maybe_value
    Alternative {
        name: 89,
        when: 0x4000000,
        from: 325,
        to: 327,
    },
    // firm_operation = not_word maybe_value
    Alternative {
        name: 89,
        when: 0x100000000000,
        from: 327,
        to: 329,
    },
    // firm_operation = mod_word maybe_value
    Alternative {
        name: 89,
        when: 0x2000000000,
        from: 329,
        to: 331,
    },
    // firm_operation = call_word called_name base call_arguments
    Alternative {
        name: 89,
        when: 0x100000000000000000000000,
        from: 331,
        to: 335,
    },
    // firm_operation = uc_word plain_called bare_call
    Alternative {
        name: 89,
        when: 0x200000000000000000000000,
        from: 335,
        to: 338,
    },
    // bit_operand = opening
    Alternative {
        name: 90,
        when: 0x2000000,
        from: 338,
        to: 339,
    },
    // bit_operand = value
    Alternative {
        name: 90,
        when: 0x200a001ffe3f,
        from: 339,
        to: 340,
    },
    // or_operand = opening
    Alternative {
        name: 91,
        when: 0x2000000,
        from: 340,
        to: 341,
    },
    // or_operand = maybe_value
    Alternative {
        name: 91,
        when: 0x200a401ffe3f,
        from: 341,
        to: 342,
    },
    // opening = paren_open
    Alternative {
        name: 92,
        when: 0x2000000,
        from: 342,
        to: 343,
    },
    // maybe_value = value
    Alternative {
        name: 93,
        when: 0x200a001ffe3f,
        from: 343,
        to: 344,
    },
    // maybe_value =
    Alternative {
        name: 93,
        when: 0x40000000,
        from: 344,
        to: 344,
    },
    // value = operand
    Alternative {
        name: 94,
        when: 0x2001ffe3b,
        from: 344,
        to: 345,
    },
    // value = number_value
    Alternative {
        name: 94,
        when: 0x200800000004,
        from: 345,
        to: 346,
    },
    // operand = word steps
    Alternative {
        name: 95,
        when: 0x1ffe01,
        from: 346,
        to: 348,
    },
    // operand = hash hashed_word steps
    Alternative {
        name: 95,
        when: 0x200000000,
        from: 348,
        to: 351,
    },
    // operand = firm_name steps
    Alternative {
        name: 95,
        when: 0x32,
        from: 351,
        to: 353,
    },
    // operand = area steps
    Alternative {
        name: 95,
        when: 0x8,
        from: 353,
        to: 355,
    },
    // hashed_word = free_word plain_hash
    Alternative {
        name: 96,
        when: 0x40,
        from: 355,
        to: 357,
    },
    // hashed_word = free_prefix plain_hash
    Alternative {
        name: 96,
        when: 0x80,
        from: 357,
        to: 359,
    },
    // number_value = number
    Alternative {
        name: 97,
        when: 0x4,
        from: 359,
        to: 360,
    },
    // number_value = minus number
    Alternative {
        name: 97,
        when: 0x800000000,
        from: 360,
        to: 362,
    },
    // number_value = truth
    Alternative {
        name: 97,
        when: 0x200000000000,
        from: 362,
        to: 363,
    },
    // called_name = plain_called
    Alternative {
        name: 98,
        when: 0x1ffe33,
        from: 363,
        to: 364,
    },
    // called_name = hash hashed_name
    Alternative {
        name: 98,
        when: 0x200000000,
        from: 364,
        to: 366,
    },
    // plain_called = word
    Alternative {
        name: 99,
        when: 0x1ffe01,
        from: 366,
        to: 367,
    },
    // plain_called = firm_name
    Alternative {
        name: 99,
        when: 0x32,
        from: 367,
        to: 368,
    },
    // hashed_name = free_word plain_hash
    Alternative {
        name: 100,
        when: 0x40,
        from: 368,
        to: 370,
    },
    // hashed_name = free_prefix hashed_prefix
    Alternative {
        name: 100,
        when: 0x80,
        from: 370,
        to: 372,
    },
    // hashed_name = free_numbered plain_hash
    Alternative {
        name: 100,
        when: 0x100,
        from: 372,
        to: 374,
    },
    // hashed_name = quoted quoted_hash
    Alternative {
        name: 100,
        when: 0x2,
        from: 374,
        to: 376,
    },
    // hashed_prefix = numbered_hash
    Alternative {
        name: 101,
        when: 0x4,
        from: 376,
        to: 377,
    },
    // hashed_prefix = plain_hash
    Alternative {
        name: 101,
        when: 0xc2000000,
        from: 377,
        to: 378,
    },
    // base = base_name
    Alternative {
        name: 102,
        when: 0x80000000,
        from: 378,
        to: 379,
    },
    // base =
    Alternative {
        name: 102,
        when: 0x42000000,
        from: 379,
        to: 379,
    },
    // base_name = comma plain_called
    Alternative {
        name: 103,
        when: 0x80000000,
        from: 379,
        to: 381,
    },
    // call_arguments = paren_open word first_argument more_arguments paren_close
    Alternative {
        name: 104,
        when: 0x2000000,
        from: 381,
        to: 386,
    },
    // call_arguments = bare_call
    Alternative {
        name: 104,
        when: 0x40000000,
        from: 386,
        to: 387,
    },
    // bare_call =
    Alternative {
        name: 105,
        when: 0x40000000,
        from: 387,
        to: 387,
    },
];

const SYMBOLS: [Symbol; 387] = [
    Symbol::Name(1),
    Symbol::Token(17),
    Symbol::Token(18),
    Symbol::Token(19),
    Symbol::Token(20),
    Symbol::Token(0),
    Symbol::Token(9),
    Symbol::Token(10),
    Symbol::Token(11),
    Symbol::Token(12),
    Symbol::Token(13),
    Symbol::Token(14),
    Symbol::Token(15),
    Symbol::Token(16),
    Symbol::Token(1),
    Symbol::Token(4),
    Symbol::Token(2),
    Symbol::Token(5),
    Symbol::Token(6),
    Symbol::Token(7),
    Symbol::Name(7),
    Symbol::Name(5),
    Symbol::Name(6),
    Symbol::Name(5),
    Symbol::Token(43),
    Symbol::Name(7),
    Symbol::Name(10),
    Symbol::Name(8),
    Symbol::Name(9),
    Symbol::Name(8),
    Symbol::Token(42),
    Symbol::Name(10),
    Symbol::Name(13),
    Symbol::Name(11),
    Symbol::Name(12),
    Symbol::Name(11),
    Symbol::Token(41),
    Symbol::Name(13),
    Symbol::Name(16),
    Symbol::Name(14),
    Symbol::Name(15),
    Symbol::Name(14),
    Symbol::Token(39),
    Symbol::Name(16),
    Symbol::Token(40),
    Symbol::Name(16),
    Symbol::Name(19),
    Symbol::Name(17),
    Symbol::Name(18),
    Symbol::Name(17),
    Symbol::Token(38),
    Symbol::Name(19),
    Symbol::Name(22),
    Symbol::Name(20),
    Symbol::Name(21),
    Symbol::Name(20),
    Symbol::Token(34),
    Symbol::Name(22),
    Symbol::Token(35),
    Symbol::Name(22),
    Symbol::Name(25),
    Symbol::Name(23),
    Symbol::Name(24),
    Symbol::Name(23),
    Symbol::Token(36),
    Symbol::Name(25),
    Symbol::Token(37),
    Symbol::Name(25),
    Symbol::Name(26),
    Symbol::Name(27),
    Symbol::Name(0),
    Symbol::Name(31),
    Symbol::Name(28),
    Symbol::Name(29),
    Symbol::Token(33),
    Symbol::Name(3),
    Symbol::Name(31),
    Symbol::Name(2),
    Symbol::Name(31),
    Symbol::Name(33),
    Symbol::Name(31),
    Symbol::Token(2),
    Symbol::Token(45),
    Symbol::Token(25),
    Symbol::Name(4),
    Symbol::Token(26),
    Symbol::Name(30),
    Symbol::Token(34),
    Symbol::Name(25),
    Symbol::Token(35),
    Symbol::Name(25),
    Symbol::Token(44),
    Symbol::Name(25),
    Symbol::Token(46),
    Symbol::Token(25),
    Symbol::Name(4),
    Symbol::Token(26),
    Symbol::Token(47),
    Symbol::Token(25),
    Symbol::Token(11),
    Symbol::Token(22),
    Symbol::Name(4),
    Symbol::Token(31),
    Symbol::Token(12),
    Symbol::Token(22),
    Symbol::Name(4),
    Symbol::Token(26),
    Symbol::Token(48),
    Symbol::Token(25),
    Symbol::Token(13),
    Symbol::Token(22),
    Symbol::Name(4),
    Symbol::Token(31),
    Symbol::Token(9),
    Symbol::Token(22),
    Symbol::Name(4),
    Symbol::Token(31),
    Symbol::Token(14),
    Symbol::Token(22),
    Symbol::Name(4),
    Symbol::Token(26),
    Symbol::Token(49),
    Symbol::Token(25),
    Symbol::Token(15),
    Symbol::Token(22),
    Symbol::Name(4),
    Symbol::Token(31),
    Symbol::Token(10),
    Symbol::Token(22),
    Symbol::Name(4),
    Symbol::Token(31),
    Symbol::Token(11),
    Symbol::Token(22),
    Symbol::Name(4),
    Symbol::Token(26),
    Symbol::Token(50),
    Symbol::Token(25),
    Symbol::Token(9),
    Symbol::Token(22),
    Symbol::Name(4),
    Symbol::Token(31),
    Symbol::Token(16),
    Symbol::Token(22),
    Symbol::Name(4),
    Symbol::Token(26),
    Symbol::Name(32),
    Symbol::Name(31),
    Symbol::Token(32),
    Symbol::Name(3),
    Symbol::Token(27),
    Symbol::Name(4),
    Symbol::Token(28),
    Symbol::Token(3),
    Symbol::Name(35),
    Symbol::Name(36),
    Symbol::Name(37),
    Symbol::Name(36),
    Symbol::Token(63),
    Symbol::Name(38),
    Symbol::Name(41),
    Symbol::Name(76),
    Symbol::Token(64),
    Symbol::Token(65),
    Symbol::Name(38),
    Symbol::Token(29),
    Symbol::Name(40),
    Symbol::Name(41),
    Symbol::Name(76),
    Symbol::Token(66),
    Symbol::Token(67),
    Symbol::Name(38),
    Symbol::Name(41),
    Symbol::Name(76),
    Symbol::Token(68),
    Symbol::Token(69),
    Symbol::Name(38),
    Symbol::Name(63),
    Symbol::Name(77),
    Symbol::Token(70),
    Symbol::Token(71),
    Symbol::Name(38),
    Symbol::Name(57),
    Symbol::Token(72),
    Symbol::Name(39),
    Symbol::Name(0),
    Symbol::Name(2),
    Symbol::Token(51),
    Symbol::Token(53),
    Symbol::Name(42),
    Symbol::Name(41),
    Symbol::Name(43),
    Symbol::Name(47),
    Symbol::Token(59),
    Symbol::Name(44),
    Symbol::Name(45),
    Symbol::Token(61),
    Symbol::Token(58),
    Symbol::Token(60),
    Symbol::Name(46),
    Symbol::Name(45),
    Symbol::Name(0),
    Symbol::Token(22),
    Symbol::Name(61),
    Symbol::Token(30),
    Symbol::Name(48),
    Symbol::Name(49),
    Symbol::Name(0),
    Symbol::Name(50),
    Symbol::Name(49),
    Symbol::Name(51),
    Symbol::Name(47),
    Symbol::Token(31),
    Symbol::Name(0),
    Symbol::Name(52),
    Symbol::Name(53),
    Symbol::Name(59),
    Symbol::Token(30),
    Symbol::Token(29),
    Symbol::Token(51),
    Symbol::Token(52),
    Symbol::Name(39),
    Symbol::Name(55),
    Symbol::Name(54),
    Symbol::Name(53),
    Symbol::Token(54),
    Symbol::Token(27),
    Symbol::Name(62),
    Symbol::Token(24),
    Symbol::Name(62),
    Symbol::Token(28),
    Symbol::Token(55),
    Symbol::Name(56),
    Symbol::Name(47),
    Symbol::Token(57),
    Symbol::Token(56),
    Symbol::Name(58),
    Symbol::Name(47),
    Symbol::Token(57),
    Symbol::Name(60),
    Symbol::Token(56),
    Symbol::Token(22),
    Symbol::Name(61),
    Symbol::Token(30),
    Symbol::Name(62),
    Symbol::Token(45),
    Symbol::Token(35),
    Symbol::Token(2),
    Symbol::Token(2),
    Symbol::Name(39),
    Symbol::Name(57),
    Symbol::Token(62),
    Symbol::Name(66),
    Symbol::Name(65),
    Symbol::Name(0),
    Symbol::Name(67),
    Symbol::Token(22),
    Symbol::Name(61),
    Symbol::Token(30),
    Symbol::Name(68),
    Symbol::Name(67),
    Symbol::Token(32),
    Symbol::Name(3),
    Symbol::Token(27),
    Symbol::Name(62),
    Symbol::Token(28),
    Symbol::Token(2),
    Symbol::Name(73),
    Symbol::Token(22),
    Symbol::Name(4),
    Symbol::Token(23),
    Symbol::Name(4),
    Symbol::Name(75),
    Symbol::Name(74),
    Symbol::Token(31),
    Symbol::Name(0),
    Symbol::Name(73),
    Symbol::Token(62),
    Symbol::Name(78),
    Symbol::Name(79),
    Symbol::Name(64),
    Symbol::Name(65),
    Symbol::Name(80),
    Symbol::Name(79),
    Symbol::Token(91),
    Symbol::Name(81),
    Symbol::Name(82),
    Symbol::Token(30),
    Symbol::Name(1),
    Symbol::Name(83),
    Symbol::Name(88),
    Symbol::Token(17),
    Symbol::Name(84),
    Symbol::Token(18),
    Symbol::Name(85),
    Symbol::Token(19),
    Symbol::Name(86),
    Symbol::Token(20),
    Symbol::Name(87),
    Symbol::Name(89),
    Symbol::Token(29),
    Symbol::Name(83),
    Symbol::Name(88),
    Symbol::Name(90),
    Symbol::Name(83),
    Symbol::Name(88),
    Symbol::Name(91),
    Symbol::Name(83),
    Symbol::Name(88),
    Symbol::Name(94),
    Symbol::Name(83),
    Symbol::Name(88),
    Symbol::Name(93),
    Symbol::Token(17),
    Symbol::Name(90),
    Symbol::Token(18),
    Symbol::Name(91),
    Symbol::Token(19),
    Symbol::Name(94),
    Symbol::Token(20),
    Symbol::Name(93),
    Symbol::Name(89),
    Symbol::Token(39),
    Symbol::Name(94),
    Symbol::Token(21),
    Symbol::Name(93),
    Symbol::Token(26),
    Symbol::Name(93),
    Symbol::Token(44),
    Symbol::Name(93),
    Symbol::Token(37),
    Symbol::Name(93),
    Symbol::Token(92),
    Symbol::Name(98),
    Symbol::Name(102),
    Symbol::Name(104),
    Symbol::Token(93),
    Symbol::Name(99),
    Symbol::Name(105),
    Symbol::Name(92),
    Symbol::Name(94),
    Symbol::Name(92),
    Symbol::Name(93),
    Symbol::Token(25),
    Symbol::Name(94),
    Symbol::Name(95),
    Symbol::Name(97),
    Symbol::Name(0),
    Symbol::Name(31),
    Symbol::Token(33),
    Symbol::Name(96),
    Symbol::Name(31),
    Symbol::Name(2),
    Symbol::Name(31),
    Symbol::Name(33),
    Symbol::Name(31),
    Symbol::Token(6),
    Symbol::Name(69),
    Symbol::Token(7),
    Symbol::Name(69),
    Symbol::Token(2),
    Symbol::Token(35),
    Symbol::Token(2),
    Symbol::Token(45),
    Symbol::Name(99),
    Symbol::Token(33),
    Symbol::Name(100),
    Symbol::Name(0),
    Symbol::Name(2),
    Symbol::Token(6),
    Symbol::Name(69),
    Symbol::Token(7),
    Symbol::Name(101),
    Symbol::Token(8),
    Symbol::Name(69),
    Symbol::Token(1),
    Symbol::Name(70),
    Symbol::Name(71),
    Symbol::Name(69),
    Symbol::Name(103),
    Symbol::Token(31),
    Symbol::Name(99),
    Symbol::Token(25),
    Symbol::Name(0),
    Symbol::Name(72),
    Symbol::Name(74),
    Symbol::Token(26),
    Symbol::Name(105),
];

/// The table of the grammar.
pub fn stl() -> Language
    ensures ll1 { IsTrue (is_ll1 result) }
    ensures grammar { grammar_of result ≡ stl_grammar }
    ensures start { result.start ≡ 34 }
{
    Language {
        rules: &RULES,
        alternatives: &ALTERNATIVES,
        symbols: &SYMBOLS,
        start: 34,
        kinds: 95,
    }
}
