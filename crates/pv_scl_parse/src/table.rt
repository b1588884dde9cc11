//! The table of SCL's grammar, with a function for each name that a text may be: a source, an expression or a name.
ghost use Rattle.std.specs.Prelude.{◌≡◌, IsTrue};
ghost use Rattle.pv_ll.specs.Check.{is_ll1};
ghost use Rattle.pv_ll.specs.Table.{grammar_of};
ghost use Rattle.pv_scl_parse.specs.SclGrammar.{scl_grammar};

use pv_ll::{Alternative, Language, Rule, Symbol};

// Written by tools/grammar_files.py from crates/pv_scl_parse/grammar/scl.txt.
const RULES: [Rule; 134] = [
    // word
    Rule {
        nullable: false,
        first: 0x1ffe01,
        follow: 0x86af465155800fffffdffe3b,
        weight: 2,
        from: 0,
        to: 5,
    },
    // label_word
    Rule {
        nullable: false,
        first: 0x1fe01,
        follow: 0x86af465155800fffffdffe3b,
        weight: 1,
        from: 5,
        to: 14,
    },
    // firm_name
    Rule {
        nullable: false,
        first: 0x32,
        follow: 0x86af465155800ffffe5ffe3b,
        weight: 1,
        from: 14,
        to: 17,
    },
    // field
    Rule {
        nullable: false,
        first: 0xc0,
        follow: 0x820e040000800ffddc400000,
        weight: 1,
        from: 17,
        to: 19,
    },
    // expression
    Rule {
        nullable: false,
        first: 0x7f00e021ffe3f,
        follow: 0x820e04000080000094000000,
        weight: 11,
        from: 19,
        to: 20,
    },
    // or_tail
    Rule {
        nullable: true,
        first: 0x80000000000,
        follow: 0x820e040000800000d4000000,
        weight: 2,
        from: 20,
        to: 22,
    },
    // or_link
    Rule {
        nullable: false,
        first: 0x80000000000,
        follow: 0x820e040000800800d4000000,
        weight: 1,
        from: 22,
        to: 23,
    },
    // xor_chain
    Rule {
        nullable: false,
        first: 0x7f00e021ffe3f,
        follow: 0x820e040000800800d4000000,
        weight: 10,
        from: 23,
        to: 24,
    },
    // xor_tail
    Rule {
        nullable: true,
        first: 0x40000000000,
        follow: 0x820e040000800800d4000000,
        weight: 2,
        from: 24,
        to: 26,
    },
    // xor_link
    Rule {
        nullable: false,
        first: 0x40000000000,
        follow: 0x820e040000800c00d4000000,
        weight: 1,
        from: 26,
        to: 27,
    },
    // and_chain
    Rule {
        nullable: false,
        first: 0x7f00e021ffe3f,
        follow: 0x820e040000800c00d4000000,
        weight: 9,
        from: 27,
        to: 28,
    },
    // and_tail
    Rule {
        nullable: true,
        first: 0x20000000000,
        follow: 0x820e040000800c00d4000000,
        weight: 2,
        from: 28,
        to: 30,
    },
    // and_link
    Rule {
        nullable: false,
        first: 0x20000000000,
        follow: 0x820e040000800e00d4000000,
        weight: 1,
        from: 30,
        to: 31,
    },
    // equal_chain
    Rule {
        nullable: false,
        first: 0x7f00e021ffe3f,
        follow: 0x820e040000800e00d4000000,
        weight: 8,
        from: 31,
        to: 32,
    },
    // equal_tail
    Rule {
        nullable: true,
        first: 0x18000000000,
        follow: 0x820e040000800e00d4000000,
        weight: 2,
        from: 32,
        to: 34,
    },
    // equal_link
    Rule {
        nullable: false,
        first: 0x18000000000,
        follow: 0x820e040000800f80d4000000,
        weight: 1,
        from: 34,
        to: 36,
    },
    // compare_chain
    Rule {
        nullable: false,
        first: 0x7f00e021ffe3f,
        follow: 0x820e040000800f80d4000000,
        weight: 7,
        from: 36,
        to: 37,
    },
    // compare_tail
    Rule {
        nullable: true,
        first: 0x4000000000,
        follow: 0x820e040000800f80d4000000,
        weight: 2,
        from: 37,
        to: 39,
    },
    // compare_link
    Rule {
        nullable: false,
        first: 0x4000000000,
        follow: 0x820e040000800fc0d4000000,
        weight: 1,
        from: 39,
        to: 40,
    },
    // sum_chain
    Rule {
        nullable: false,
        first: 0x7f00e021ffe3f,
        follow: 0x820e040000800fc0d4000000,
        weight: 6,
        from: 40,
        to: 41,
    },
    // sum_tail
    Rule {
        nullable: true,
        first: 0xc00000000,
        follow: 0x820e040000800fc0d4000000,
        weight: 2,
        from: 41,
        to: 43,
    },
    // sum_link
    Rule {
        nullable: false,
        first: 0xc00000000,
        follow: 0x820e040000800fccd4000000,
        weight: 1,
        from: 43,
        to: 45,
    },
    // product_chain
    Rule {
        nullable: false,
        first: 0x7f00e021ffe3f,
        follow: 0x820e040000800fccd4000000,
        weight: 5,
        from: 45,
        to: 46,
    },
    // product_tail
    Rule {
        nullable: true,
        first: 0x3000000000,
        follow: 0x820e040000800fccd4000000,
        weight: 2,
        from: 46,
        to: 48,
    },
    // product_link
    Rule {
        nullable: false,
        first: 0x3000000000,
        follow: 0x820e040000800ffcd4000000,
        weight: 1,
        from: 48,
        to: 50,
    },
    // factor
    Rule {
        nullable: false,
        first: 0x7f00e021ffe3f,
        follow: 0x820e040000800ffcd4000000,
        weight: 4,
        from: 50,
        to: 52,
    },
    // word_read
    Rule {
        nullable: false,
        first: 0x1ffe01,
        follow: 0x820e040000800ffcd4000000,
        weight: 3,
        from: 52,
        to: 53,
    },
    // other_factor
    Rule {
        nullable: false,
        first: 0x7f00e0200003e,
        follow: 0x820e040000800ffcd4000000,
        weight: 3,
        from: 53,
        to: 55,
    },
    // name_read
    Rule {
        nullable: false,
        first: 0x200000032,
        follow: 0x820e040000800ffcd4000000,
        weight: 2,
        from: 55,
        to: 57,
    },
    // firm_factor
    Rule {
        nullable: false,
        first: 0x7f00c0200000c,
        follow: 0x820e040000800ffcd4000000,
        weight: 2,
        from: 57,
        to: 65,
    },
    // function
    Rule {
        nullable: false,
        first: 0x7c00000000000,
        follow: 0x820e040000800ffcd4000000,
        weight: 1,
        from: 65,
        to: 70,
    },
    // steps
    Rule {
        nullable: true,
        first: 0x108000000,
        follow: 0x820e040000800ffcd4400000,
        weight: 2,
        from: 70,
        to: 72,
    },
    // step
    Rule {
        nullable: false,
        first: 0x108000000,
        follow: 0x820e040000800ffddc400000,
        weight: 1,
        from: 72,
        to: 74,
    },
    // area
    Rule {
        nullable: false,
        first: 0x8,
        follow: 0x820e040000800ffddc400000,
        weight: 1,
        from: 74,
        to: 75,
    },
    // source
    Rule {
        nullable: true,
        first: 0xaa8000000000000000,
        follow: 0x800000000000000000000000,
        weight: 4,
        from: 75,
        to: 76,
    },
    // new_source
    Rule {
        nullable: true,
        first: 0x0,
        follow: 0x800000aa8000000000000000,
        weight: 1,
        from: 76,
        to: 77,
    },
    // blocks
    Rule {
        nullable: true,
        first: 0xaa8000000000000000,
        follow: 0x800000000000000000000000,
        weight: 2,
        from: 77,
        to: 79,
    },
    // block
    Rule {
        nullable: false,
        first: 0xaa8000000000000000,
        follow: 0x800000aa8000000000000000,
        weight: 1,
        from: 79,
        to: 84,
    },
    // block_name
    Rule {
        nullable: false,
        first: 0x1ffe33,
        follow: 0x4a1421155000002601ffe3b,
        weight: 4,
        from: 84,
        to: 85,
    },
    // name
    Rule {
        nullable: false,
        first: 0x1ffe33,
        follow: 0x84a1425155000002605ffe3b,
        weight: 3,
        from: 85,
        to: 87,
    },
    // value_type
    Rule {
        nullable: false,
        first: 0x28000000000000,
        follow: 0x4a1420454000002401ffe3b,
        weight: 1,
        from: 87,
        to: 89,
    },
    // sections
    Rule {
        nullable: true,
        first: 0x1400000000000000,
        follow: 0x4a1421540000002401ffe3b,
        weight: 3,
        from: 89,
        to: 91,
    },
    // section
    Rule {
        nullable: false,
        first: 0x1400000000000000,
        follow: 0x4a1421554000002401ffe3b,
        weight: 2,
        from: 91,
        to: 93,
    },
    // section_head
    Rule {
        nullable: false,
        first: 0x400000000000000,
        follow: 0x8000000001ffe01,
        weight: 1,
        from: 93,
        to: 94,
    },
    // const_head
    Rule {
        nullable: false,
        first: 0x1000000000000000,
        follow: 0x20000000001ffe01,
        weight: 1,
        from: 94,
        to: 95,
    },
    // constants
    Rule {
        nullable: true,
        first: 0x1ffe01,
        follow: 0x2000000000000000,
        weight: 4,
        from: 95,
        to: 97,
    },
    // constant
    Rule {
        nullable: false,
        first: 0x1ffe01,
        follow: 0x20000000001ffe01,
        weight: 3,
        from: 97,
        to: 98,
    },
    // declarations
    Rule {
        nullable: true,
        first: 0x1ffe01,
        follow: 0xa00000000000000,
        weight: 4,
        from: 98,
        to: 100,
    },
    // first_word
    Rule {
        nullable: false,
        first: 0x1ffe01,
        follow: 0xa0000000,
        weight: 3,
        from: 100,
        to: 101,
    },
    // declared_words
    Rule {
        nullable: false,
        first: 0xa0000000,
        follow: 0xa00000000000000,
        weight: 3,
        from: 101,
        to: 103,
    },
    // next_word
    Rule {
        nullable: false,
        first: 0x80000000,
        follow: 0xa0000000,
        weight: 1,
        from: 103,
        to: 104,
    },
    // declared
    Rule {
        nullable: false,
        first: 0x20000000,
        follow: 0xa000000001ffe01,
        weight: 2,
        from: 104,
        to: 105,
    },
    // type_head
    Rule {
        nullable: false,
        first: 0x20000000,
        follow: 0x1580000001ffe33,
        weight: 1,
        from: 105,
        to: 106,
    },
    // declared_type
    Rule {
        nullable: false,
        first: 0x1580000001ffe33,
        follow: 0x40400000,
        weight: 4,
        from: 106,
        to: 111,
    },
    // array_head
    Rule {
        nullable: false,
        first: 0x40000000000000,
        follow: 0x1580000001ffe33,
        weight: 1,
        from: 111,
        to: 112,
    },
    // struct
    Rule {
        nullable: false,
        first: 0x100000000000000,
        follow: 0x40400000,
        weight: 2,
        from: 112,
        to: 113,
    },
    // struct_head
    Rule {
        nullable: false,
        first: 0x100000000000000,
        follow: 0x2000000001ffe01,
        weight: 1,
        from: 113,
        to: 114,
    },
    // own_fields
    Rule {
        nullable: false,
        first: 0x100000000000000,
        follow: 0x1404000000000000000,
        weight: 2,
        from: 114,
        to: 115,
    },
    // own_head
    Rule {
        nullable: false,
        first: 0x100000000000000,
        follow: 0x2000000001ffe01,
        weight: 1,
        from: 115,
        to: 116,
    },
    // start_value
    Rule {
        nullable: true,
        first: 0x400000,
        follow: 0x40000000,
        weight: 1,
        from: 116,
        to: 118,
    },
    // maybe_semicolon
    Rule {
        nullable: true,
        first: 0x40000000,
        follow: 0x1404000000000000000,
        weight: 1,
        from: 118,
        to: 120,
    },
    // literal
    Rule {
        nullable: false,
        first: 0x200800000004,
        follow: 0x8000000000000e1000000,
        weight: 2,
        from: 120,
        to: 122,
    },
    // integer
    Rule {
        nullable: false,
        first: 0x800000004,
        follow: 0x8000000000000f1000000,
        weight: 1,
        from: 122,
        to: 124,
    },
    // data_type
    Rule {
        nullable: false,
        first: 0x1000000001ffe33,
        follow: 0x404000000000000000,
        weight: 4,
        from: 124,
        to: 126,
    },
    // data_head
    Rule {
        nullable: false,
        first: 0x4000000000000000,
        follow: 0x4000000000001ffe01,
        weight: 1,
        from: 126,
        to: 127,
    },
    // data_values
    Rule {
        nullable: true,
        first: 0x1ffe01,
        follow: 0x400000000000000000,
        weight: 4,
        from: 127,
        to: 129,
    },
    // data_value
    Rule {
        nullable: false,
        first: 0x1ffe01,
        follow: 0x4000000000001ffe01,
        weight: 3,
        from: 129,
        to: 130,
    },
    // path_steps
    Rule {
        nullable: true,
        first: 0x108000000,
        follow: 0x400000,
        weight: 2,
        from: 130,
        to: 132,
    },
    // path_step
    Rule {
        nullable: false,
        first: 0x108000000,
        follow: 0x108400000,
        weight: 1,
        from: 132,
        to: 134,
    },
    // plain_hash
    Rule {
        nullable: true,
        first: 0x0,
        follow: 0xffd4a400000,
        weight: 1,
        from: 134,
        to: 135,
    },
    // quoted_hash
    Rule {
        nullable: true,
        first: 0x0,
        follow: 0x102000000,
        weight: 1,
        from: 135,
        to: 136,
    },
    // numbered_hash
    Rule {
        nullable: false,
        first: 0x4,
        follow: 0x102000000,
        weight: 1,
        from: 136,
        to: 137,
    },
    // first_argument
    Rule {
        nullable: false,
        first: 0xc00000,
        follow: 0x84000000,
        weight: 2,
        from: 137,
        to: 138,
    },
    // argument_value
    Rule {
        nullable: false,
        first: 0xc00000,
        follow: 0x84000000,
        weight: 1,
        from: 138,
        to: 140,
    },
    // more_arguments
    Rule {
        nullable: true,
        first: 0x80000000,
        follow: 0x4000000,
        weight: 2,
        from: 140,
        to: 142,
    },
    // next_argument
    Rule {
        nullable: false,
        first: 0x80000000,
        follow: 0x84000000,
        weight: 1,
        from: 142,
        to: 143,
    },
    // body
    Rule {
        nullable: true,
        first: 0x4a1420040000002401ffe3b,
        follow: 0x150000000000000000,
        weight: 8,
        from: 143,
        to: 145,
    },
    // data_body
    Rule {
        nullable: true,
        first: 0x4000000000000000,
        follow: 0x400000000000000000,
        weight: 2,
        from: 145,
        to: 147,
    },
    // list
    Rule {
        nullable: true,
        first: 0x4a1420000000002401ffe3b,
        follow: 0x150b8150000000000000000,
        weight: 7,
        from: 147,
        to: 148,
    },
    // new_list
    Rule {
        nullable: true,
        first: 0x0,
        follow: 0x5f1fa1500000002401ffe3b,
        weight: 1,
        from: 148,
        to: 149,
    },
    // items
    Rule {
        nullable: true,
        first: 0x4a1420000000002401ffe3b,
        follow: 0x150b8150000000000000000,
        weight: 5,
        from: 149,
        to: 151,
    },
    // item
    Rule {
        nullable: false,
        first: 0x4a1420000000002401ffe3b,
        follow: 0x5f1fa1500000002401ffe3b,
        weight: 4,
        from: 151,
        to: 153,
    },
    // firm_item
    Rule {
        nullable: false,
        first: 0x4a14200000000024000003a,
        follow: 0x5f1fa150000200a401ffe3f,
        weight: 3,
        from: 153,
        to: 155,
    },
    // word_item
    Rule {
        nullable: false,
        first: 0x10a400000,
        follow: 0x5f1fa150000200a401ffe3f,
        weight: 5,
        from: 155,
        to: 156,
    },
    // other_statement
    Rule {
        nullable: false,
        first: 0x4a14200000000020000003a,
        follow: 0x40000000,
        weight: 2,
        from: 156,
        to: 165,
    },
    // first_arm
    Rule {
        nullable: false,
        first: 0x7f00e021ffe3f,
        follow: 0x38000000000000000000,
        weight: 12,
        from: 165,
        to: 166,
    },
    // elsifs
    Rule {
        nullable: true,
        first: 0x8000000000000000000,
        follow: 0x30000000000000000000,
        weight: 2,
        from: 166,
        to: 168,
    },
    // elsif
    Rule {
        nullable: false,
        first: 0x8000000000000000000,
        follow: 0x38000000000000000000,
        weight: 1,
        from: 168,
        to: 169,
    },
    // maybe_else
    Rule {
        nullable: true,
        first: 0x10000000000000000000,
        follow: 0x20000000000000000000,
        weight: 1,
        from: 169,
        to: 171,
    },
    // maybe_by
    Rule {
        nullable: true,
        first: 0x400000000000000000000,
        follow: 0x800000000000000000000,
        weight: 1,
        from: 171,
        to: 173,
    },
    // branches
    Rule {
        nullable: true,
        first: 0x2008001ffe05,
        follow: 0x90000000000000000000,
        weight: 7,
        from: 173,
        to: 175,
    },
    // new_branches
    Rule {
        nullable: true,
        first: 0x0,
        follow: 0x2008001ffe05,
        weight: 1,
        from: 175,
        to: 176,
    },
    // label
    Rule {
        nullable: false,
        first: 0x2008001ffe05,
        follow: 0x4a1d2000000200a401ffe3f,
        weight: 5,
        from: 176,
        to: 177,
    },
    // label_rest
    Rule {
        nullable: false,
        first: 0xa1000000,
        follow: 0x4a1d2000000200a401ffe3f,
        weight: 4,
        from: 177,
        to: 178,
    },
    // first_range
    Rule {
        nullable: true,
        first: 0x1000000,
        follow: 0xa0000000,
        weight: 1,
        from: 178,
        to: 180,
    },
    // more_choices
    Rule {
        nullable: true,
        first: 0x80000000,
        follow: 0x20000000,
        weight: 2,
        from: 180,
        to: 182,
    },
    // next_choice
    Rule {
        nullable: false,
        first: 0x80000000,
        follow: 0xa0000000,
        weight: 1,
        from: 182,
        to: 183,
    },
    // next_range
    Rule {
        nullable: true,
        first: 0x1000000,
        follow: 0xa0000000,
        weight: 1,
        from: 183,
        to: 185,
    },
    // choice
    Rule {
        nullable: false,
        first: 0x2008001ffe05,
        follow: 0xa1000000,
        weight: 4,
        from: 185,
        to: 187,
    },
    // literal_choice
    Rule {
        nullable: false,
        first: 0x200800000004,
        follow: 0xa1000000,
        weight: 3,
        from: 187,
        to: 188,
    },
    // word_choice
    Rule {
        nullable: true,
        first: 0x0,
        follow: 0xa1000000,
        weight: 1,
        from: 188,
        to: 189,
    },
    // case_items
    Rule {
        nullable: true,
        first: 0x4a142000000200a401ffe3f,
        follow: 0x90000000000000000000,
        weight: 5,
        from: 189,
        to: 191,
    },
    // case_item
    Rule {
        nullable: false,
        first: 0x4a142000000200a401ffe3f,
        follow: 0x4a1d2000000200a401ffe3f,
        weight: 4,
        from: 191,
        to: 194,
    },
    // after_case_word
    Rule {
        nullable: false,
        first: 0x1ab400000,
        follow: 0x4a1d2000000200a401ffe3f,
        weight: 6,
        from: 194,
        to: 196,
    },
    // case_else
    Rule {
        nullable: true,
        first: 0x10000000000000000000,
        follow: 0x80000000000000000000,
        weight: 1,
        from: 196,
        to: 198,
    },
    // maybe_colon
    Rule {
        nullable: true,
        first: 0x20000000,
        follow: 0x4a1c20000000002401ffe3b,
        weight: 1,
        from: 198,
        to: 200,
    },
    // after_word
    Rule {
        nullable: false,
        first: 0x10a400000,
        follow: 0x40000000,
        weight: 4,
        from: 200,
        to: 203,
    },
    // after_dot
    Rule {
        nullable: false,
        first: 0x1c2,
        follow: 0x40000000,
        weight: 1,
        from: 203,
        to: 207,
    },
    // after_prefix
    Rule {
        nullable: false,
        first: 0x10a400004,
        follow: 0x40000000,
        weight: 6,
        from: 207,
        to: 209,
    },
    // after_second
    Rule {
        nullable: false,
        first: 0x10a400000,
        follow: 0x40000000,
        weight: 4,
        from: 209,
        to: 211,
    },
    // after_hash
    Rule {
        nullable: false,
        first: 0x1c2,
        follow: 0x40000000,
        weight: 1,
        from: 211,
        to: 215,
    },
    // after_hash_prefix
    Rule {
        nullable: false,
        first: 0x10a400004,
        follow: 0x40000000,
        weight: 6,
        from: 215,
        to: 217,
    },
    // assignment
    Rule {
        nullable: false,
        first: 0x400000,
        follow: 0x40000000,
        weight: 1,
        from: 217,
        to: 218,
    },
    // maybe_index
    Rule {
        nullable: true,
        first: 0x8000000,
        follow: 0xffc40400000,
        weight: 2,
        from: 218,
        to: 220,
    },
    // first_index
    Rule {
        nullable: false,
        first: 0x8000000,
        follow: 0xffd48400000,
        weight: 1,
        from: 220,
        to: 221,
    },
    // plain_second
    Rule {
        nullable: true,
        first: 0x0,
        follow: 0xffd4a400000,
        weight: 1,
        from: 221,
        to: 222,
    },
    // quoted_second
    Rule {
        nullable: true,
        first: 0x0,
        follow: 0x2000000,
        weight: 1,
        from: 222,
        to: 223,
    },
    // numbered_second
    Rule {
        nullable: false,
        first: 0x4,
        follow: 0x2000000,
        weight: 1,
        from: 223,
        to: 224,
    },
    // called
    Rule {
        nullable: false,
        first: 0x102000000,
        follow: 0x40000000,
        weight: 2,
        from: 224,
        to: 226,
    },
    // second_name
    Rule {
        nullable: false,
        first: 0x1c2,
        follow: 0x2000000,
        weight: 1,
        from: 226,
        to: 230,
    },
    // second_number
    Rule {
        nullable: true,
        first: 0x4,
        follow: 0x2000000,
        weight: 2,
        from: 230,
        to: 232,
    },
    // call_arguments
    Rule {
        nullable: false,
        first: 0x2000000,
        follow: 0x40000000,
        weight: 1,
        from: 232,
        to: 233,
    },
    // arguments
    Rule {
        nullable: true,
        first: 0x7f00e021ffe3f,
        follow: 0x4000000,
        weight: 4,
        from: 233,
        to: 236,
    },
    // after_argument_word
    Rule {
        nullable: true,
        first: 0xffd08c00000,
        follow: 0x4000000,
        weight: 19,
        from: 236,
        to: 238,
    },
    // value
    Rule {
        nullable: false,
        first: 0x7f00e021ffe3f,
        follow: 0x40000000,
        weight: 3,
        from: 238,
        to: 242,
    },
    // value_after_word
    Rule {
        nullable: true,
        first: 0xffd0a000000,
        follow: 0x40000000,
        weight: 19,
        from: 242,
        to: 245,
    },
    // value_after_dot
    Rule {
        nullable: false,
        first: 0x1c2,
        follow: 0x40000000,
        weight: 1,
        from: 245,
        to: 249,
    },
    // value_after_prefix
    Rule {
        nullable: true,
        first: 0xffd0a000004,
        follow: 0x40000000,
        weight: 21,
        from: 249,
        to: 251,
    },
    // value_after_second
    Rule {
        nullable: true,
        first: 0xffd0a000000,
        follow: 0x40000000,
        weight: 19,
        from: 251,
        to: 253,
    },
    // value_after_hash
    Rule {
        nullable: false,
        first: 0x1c2,
        follow: 0x40000000,
        weight: 1,
        from: 253,
        to: 257,
    },
    // value_after_hash_prefix
    Rule {
        nullable: true,
        first: 0xffd0a000004,
        follow: 0x40000000,
        weight: 21,
        from: 257,
        to: 259,
    },
    // first_read
    Rule {
        nullable: true,
        first: 0x8000000,
        follow: 0xffc40000000,
        weight: 3,
        from: 259,
        to: 260,
    },
    // second_read
    Rule {
        nullable: true,
        first: 0x108000000,
        follow: 0xffc44000000,
        weight: 3,
        from: 260,
        to: 261,
    },
    // chain
    Rule {
        nullable: true,
        first: 0xffc00000000,
        follow: 0x44000000,
        weight: 15,
        from: 261,
        to: 262,
    },
];

const ALTERNATIVES: [Alternative; 262] = [
    // word = label_word
    Alternative {
        name: 0,
        when: 0x1fe01,
        from: 0,
        to: 1,
    },
    // word = bit_op
    Alternative {
        name: 0,
        when: 0x20000,
        from: 1,
        to: 2,
    },
    // word = or_op
    Alternative {
        name: 0,
        when: 0x40000,
        from: 2,
        to: 3,
    },
    // word = value_op
    Alternative {
        name: 0,
        when: 0x80000,
        from: 3,
        to: 4,
    },
    // word = free_op
    Alternative {
        name: 0,
        when: 0x100000,
        from: 4,
        to: 5,
    },
    // label_word = plain
    Alternative {
        name: 1,
        when: 0x1,
        from: 5,
        to: 6,
    },
    // label_word = in_word
    Alternative {
        name: 1,
        when: 0x200,
        from: 6,
        to: 7,
    },
    // label_word = in0_word
    Alternative {
        name: 1,
        when: 0x400,
        from: 7,
        to: 8,
    },
    // label_word = in1_word
    Alternative {
        name: 1,
        when: 0x800,
        from: 8,
        to: 9,
    },
    // label_word = in2_word
    Alternative {
        name: 1,
        when: 0x1000,
        from: 9,
        to: 10,
    },
    // label_word = mn_word
    Alternative {
        name: 1,
        when: 0x2000,
        from: 10,
        to: 11,
    },
    // label_word = mx_word
    Alternative {
        name: 1,
        when: 0x4000,
        from: 11,
        to: 12,
    },
    // label_word = g_word
    Alternative {
        name: 1,
        when: 0x8000,
        from: 12,
        to: 13,
    },
    // label_word = n_word
    Alternative {
        name: 1,
        when: 0x10000,
        from: 13,
        to: 14,
    },
    // firm_name = quoted
    Alternative {
        name: 2,
        when: 0x2,
        from: 14,
        to: 15,
    },
    // firm_name = number_prefix number
    Alternative {
        name: 2,
        when: 0x10,
        from: 15,
        to: 17,
    },
    // firm_name = numbered
    Alternative {
        name: 2,
        when: 0x20,
        from: 17,
        to: 18,
    },
    // field = free_word
    Alternative {
        name: 3,
        when: 0x40,
        from: 18,
        to: 19,
    },
    // field = free_prefix
    Alternative {
        name: 3,
        when: 0x80,
        from: 19,
        to: 20,
    },
    // expression = xor_chain or_tail
    Alternative {
        name: 4,
        when: 0x7f00e021ffe3f,
        from: 20,
        to: 22,
    },
    // or_tail = or_link or_tail
    Alternative {
        name: 5,
        when: 0x80000000000,
        from: 22,
        to: 24,
    },
    // or_tail =
    Alternative {
        name: 5,
        when: 0x820e040000800000d4000000,
        from: 24,
        to: 24,
    },
    // or_link = or_word xor_chain
    Alternative {
        name: 6,
        when: 0x80000000000,
        from: 24,
        to: 26,
    },
    // xor_chain = and_chain xor_tail
    Alternative {
        name: 7,
        when: 0x7f00e021ffe3f,
        from: 26,
        to: 28,
    },
    // xor_tail = xor_link xor_tail
    Alternative {
        name: 8,
        when: 0x40000000000,
        from: 28,
        to: 30,
    },
    // xor_tail =
    Alternative {
        name: 8,
        when: 0x820e040000800800d4000000,
        from: 30,
        to: 30,
    },
    // xor_link = xor_word and_chain
    Alternative {
        name: 9,
        when: 0x40000000000,
        from: 30,
        to: 32,
    },
    // and_chain = equal_chain and_tail
    Alternative {
        name: 10,
        when: 0x7f00e021ffe3f,
        from: 32,
        to: 34,
    },
    // and_tail = and_link and_tail
    Alternative {
        name: 11,
        when: 0x20000000000,
        from: 34,
        to: 36,
    },
    // and_tail =
    Alternative {
        name: 11,
        when: 0x820e040000800c00d4000000,
        from: 36,
        to: 36,
    },
    // and_link = and_word equal_chain
    Alternative {
        name: 12,
        when: 0x20000000000,
        from: 36,
        to: 38,
    },
    // equal_chain = compare_chain equal_tail
    Alternative {
        name: 13,
        when: 0x7f00e021ffe3f,
        from: 38,
        to: 40,
    },
    // equal_tail = equal_link equal_tail
    Alternative {
        name: 14,
        when: 0x18000000000,
        from: 40,
        to: 42,
    },
    // equal_tail =
    Alternative {
        name: 14,
        when: 0x820e040000800e00d4000000,
        from: 42,
        to: 42,
    },
    // equal_link = equals compare_chain
    Alternative {
        name: 15,
        when: 0x8000000000,
        from: 42,
        to: 44,
    },
    // equal_link = unequal compare_chain
    Alternative {
        name: 15,
        when: 0x10000000000,
        from: 44,
        to: 46,
    },
    // compare_chain = sum_chain compare_tail
    Alternative {
        name: 16,
        when: 0x7f00e021ffe3f,
        from: 46,
        to: 48,
    },
    // compare_tail = compare_link compare_tail
    Alternative {
        name: 17,
        when: 0x4000000000,
        from: 48,
        to: 50,
    },
    // compare_tail =
    Alternative {
        name: 17,
        when: 0x820e040000800f80d4000000,
        from: 50,
        to: 50,
    },
    // compare_link = compare_sign sum_chain
    Alternative {
        name: 18,
        when: 0x4000000000,
        from: 50,
        to: 52,
    },
    // sum_chain = product_chain sum_tail
    Alternative {
        name: 19,
        when: 0x7f00e021ffe3f,
        from: 52,
        to: 54,
    },
    // sum_tail = sum_link sum_tail
    Alternative {
        name: 20,
        when: 0xc00000000,
        from: 54,
        to: 56,
    },
    // sum_tail =
    Alternative {
        name: 20,
        when: 0x820e040000800fc0d4000000,
        from: 56,
        to: 56,
    },
    // sum_link = plus product_chain
    Alternative {
        name: 21,
        when: 0x400000000,
        from: 56,
        to: 58,
    },
    // sum_link = minus product_chain
    Alternative {
        name: 21,
        when: 0x800000000,
        from: 58,
        to: 60,
    },
    // product_chain = factor product_tail
    Alternative {
        name: 22,
        when: 0x7f00e021ffe3f,
        from: 60,
        to: 62,
    },
    // product_tail = product_link product_tail
    Alternative {
        name: 23,
        when: 0x3000000000,
        from: 62,
        to: 64,
    },
    // product_tail =
    Alternative {
        name: 23,
        when: 0x820e040000800fccd4000000,
        from: 64,
        to: 64,
    },
    // product_link = times factor
    Alternative {
        name: 24,
        when: 0x1000000000,
        from: 64,
        to: 66,
    },
    // product_link = mod_word factor
    Alternative {
        name: 24,
        when: 0x2000000000,
        from: 66,
        to: 68,
    },
    // factor = word_read
    Alternative {
        name: 25,
        when: 0x1ffe01,
        from: 68,
        to: 69,
    },
    // factor = other_factor
    Alternative {
        name: 25,
        when: 0x7f00e0200003e,
        from: 69,
        to: 70,
    },
    // word_read = word steps
    Alternative {
        name: 26,
        when: 0x1ffe01,
        from: 70,
        to: 72,
    },
    // other_factor = name_read
    Alternative {
        name: 27,
        when: 0x200000032,
        from: 72,
        to: 73,
    },
    // other_factor = firm_factor
    Alternative {
        name: 27,
        when: 0x7f00c0200000c,
        from: 73,
        to: 74,
    },
    // name_read = hash field steps
    Alternative {
        name: 28,
        when: 0x200000000,
        from: 74,
        to: 77,
    },
    // name_read = firm_name steps
    Alternative {
        name: 28,
        when: 0x32,
        from: 77,
        to: 79,
    },
    // firm_factor = area steps
    Alternative {
        name: 29,
        when: 0x8,
        from: 79,
        to: 81,
    },
    // firm_factor = number
    Alternative {
        name: 29,
        when: 0x4,
        from: 81,
        to: 82,
    },
    // firm_factor = truth
    Alternative {
        name: 29,
        when: 0x200000000000,
        from: 82,
        to: 83,
    },
    // firm_factor = paren_open expression paren_close
    Alternative {
        name: 29,
        when: 0x2000000,
        from: 83,
        to: 86,
    },
    // firm_factor = function
    Alternative {
        name: 29,
        when: 0x7c00000000000,
        from: 86,
        to: 87,
    },
    // firm_factor = plus factor
    Alternative {
        name: 29,
        when: 0x400000000,
        from: 87,
        to: 89,
    },
    // firm_factor = minus factor
    Alternative {
        name: 29,
        when: 0x800000000,
        from: 89,
        to: 91,
    },
    // firm_factor = not_word factor
    Alternative {
        name: 29,
        when: 0x100000000000,
        from: 91,
        to: 93,
    },
    // function = one_function paren_open expression paren_close
    Alternative {
        name: 30,
        when: 0x400000000000,
        from: 93,
        to: 97,
    },
    // function = two_function paren_open in1_word assign expression comma in2_word assign expression paren_close
    Alternative {
        name: 30,
        when: 0x800000000000,
        from: 97,
        to: 107,
    },
    // function = limit_function paren_open mn_word assign expression comma in_word assign expression comma mx_word assign expression paren_close
    Alternative {
        name: 30,
        when: 0x1000000000000,
        from: 107,
        to: 121,
    },
    // function = sel_function paren_open g_word assign expression comma in0_word assign expression comma in1_word assign expression paren_close
    Alternative {
        name: 30,
        when: 0x2000000000000,
        from: 121,
        to: 135,
    },
    // function = shift_function paren_open in_word assign expression comma n_word assign expression paren_close
    Alternative {
        name: 30,
        when: 0x4000000000000,
        from: 135,
        to: 145,
    },
    // steps = step steps
    Alternative {
        name: 31,
        when: 0x108000000,
        from: 145,
        to: 147,
    },
    // steps =
    Alternative {
        name: 31,
        when: 0x820e040000800ffcd4400000,
        from: 147,
        to: 147,
    },
    // step = dot field
    Alternative {
        name: 32,
        when: 0x100000000,
        from: 147,
        to: 149,
    },
    // step = bracket_open expression bracket_close
    Alternative {
        name: 32,
        when: 0x8000000,
        from: 149,
        to: 152,
    },
    // area = address
    Alternative {
        name: 33,
        when: 0x8,
        from: 152,
        to: 153,
    },
    // source = new_source blocks
    Alternative {
        name: 34,
        when: 0x800000aa8000000000000000,
        from: 153,
        to: 155,
    },
    // new_source =
    Alternative {
        name: 35,
        when: 0x800000aa8000000000000000,
        from: 155,
        to: 155,
    },
    // blocks = block blocks
    Alternative {
        name: 36,
        when: 0xaa8000000000000000,
        from: 155,
        to: 157,
    },
    // blocks =
    Alternative {
        name: 36,
        when: 0x800000000000000000000000,
        from: 157,
        to: 157,
    },
    // block = function_block block_name sections body end_function_block
    Alternative {
        name: 37,
        when: 0x8000000000000000,
        from: 157,
        to: 162,
    },
    // block = function_word block_name colon value_type sections body end_function
    Alternative {
        name: 37,
        when: 0x20000000000000000,
        from: 162,
        to: 169,
    },
    // block = organization_block block_name sections body end_organization_block
    Alternative {
        name: 37,
        when: 0x80000000000000000,
        from: 169,
        to: 174,
    },
    // block = data_block block_name data_type data_body end_data_block
    Alternative {
        name: 37,
        when: 0x200000000000000000,
        from: 174,
        to: 179,
    },
    // block = type_word block_name own_fields end_type
    Alternative {
        name: 37,
        when: 0x800000000000000000,
        from: 179,
        to: 183,
    },
    // block_name = name
    Alternative {
        name: 38,
        when: 0x1ffe33,
        from: 183,
        to: 184,
    },
    // name = word
    Alternative {
        name: 39,
        when: 0x1ffe01,
        from: 184,
        to: 185,
    },
    // name = firm_name
    Alternative {
        name: 39,
        when: 0x32,
        from: 185,
        to: 186,
    },
    // value_type = simple_type
    Alternative {
        name: 40,
        when: 0x8000000000000,
        from: 186,
        to: 187,
    },
    // value_type = void_word
    Alternative {
        name: 40,
        when: 0x20000000000000,
        from: 187,
        to: 188,
    },
    // sections = section sections
    Alternative {
        name: 41,
        when: 0x1400000000000000,
        from: 188,
        to: 190,
    },
    // sections =
    Alternative {
        name: 41,
        when: 0x4a1421540000002401ffe3b,
        from: 190,
        to: 190,
    },
    // section = section_head declarations end_var
    Alternative {
        name: 42,
        when: 0x400000000000000,
        from: 190,
        to: 193,
    },
    // section = const_head constants end_const
    Alternative {
        name: 42,
        when: 0x1000000000000000,
        from: 193,
        to: 196,
    },
    // section_head = section_word
    Alternative {
        name: 43,
        when: 0x400000000000000,
        from: 196,
        to: 197,
    },
    // const_head = const_word
    Alternative {
        name: 44,
        when: 0x1000000000000000,
        from: 197,
        to: 198,
    },
    // constants = constant constants
    Alternative {
        name: 45,
        when: 0x1ffe01,
        from: 198,
        to: 200,
    },
    // constants =
    Alternative {
        name: 45,
        when: 0x2000000000000000,
        from: 200,
        to: 200,
    },
    // constant = word assign literal semicolon
    Alternative {
        name: 46,
        when: 0x1ffe01,
        from: 200,
        to: 204,
    },
    // declarations = first_word declared_words
    Alternative {
        name: 47,
        when: 0x1ffe01,
        from: 204,
        to: 206,
    },
    // declarations =
    Alternative {
        name: 47,
        when: 0xa00000000000000,
        from: 206,
        to: 206,
    },
    // first_word = word
    Alternative {
        name: 48,
        when: 0x1ffe01,
        from: 206,
        to: 207,
    },
    // declared_words = next_word declared_words
    Alternative {
        name: 49,
        when: 0x80000000,
        from: 207,
        to: 209,
    },
    // declared_words = declared declarations
    Alternative {
        name: 49,
        when: 0x20000000,
        from: 209,
        to: 211,
    },
    // next_word = comma word
    Alternative {
        name: 50,
        when: 0x80000000,
        from: 211,
        to: 213,
    },
    // declared = type_head declared_type start_value semicolon
    Alternative {
        name: 51,
        when: 0x20000000,
        from: 213,
        to: 217,
    },
    // type_head = colon
    Alternative {
        name: 52,
        when: 0x20000000,
        from: 217,
        to: 218,
    },
    // declared_type = simple_type
    Alternative {
        name: 53,
        when: 0x8000000000000,
        from: 218,
        to: 219,
    },
    // declared_type = date_and_time
    Alternative {
        name: 53,
        when: 0x10000000000000,
        from: 219,
        to: 220,
    },
    // declared_type = name
    Alternative {
        name: 53,
        when: 0x1ffe33,
        from: 220,
        to: 221,
    },
    // declared_type = struct
    Alternative {
        name: 53,
        when: 0x100000000000000,
        from: 221,
        to: 222,
    },
    // declared_type = array_head declared_type
    Alternative {
        name: 53,
        when: 0x40000000000000,
        from: 222,
        to: 224,
    },
    // array_head = array_word bracket_open integer dots integer bracket_close of_word
    Alternative {
        name: 54,
        when: 0x40000000000000,
        from: 224,
        to: 231,
    },
    // struct = struct_head declarations end_struct
    Alternative {
        name: 55,
        when: 0x100000000000000,
        from: 231,
        to: 234,
    },
    // struct_head = struct_word
    Alternative {
        name: 56,
        when: 0x100000000000000,
        from: 234,
        to: 235,
    },
    // own_fields = own_head declarations end_struct maybe_semicolon
    Alternative {
        name: 57,
        when: 0x100000000000000,
        from: 235,
        to: 239,
    },
    // own_head = struct_word
    Alternative {
        name: 58,
        when: 0x100000000000000,
        from: 239,
        to: 240,
    },
    // start_value = assign literal
    Alternative {
        name: 59,
        when: 0x400000,
        from: 240,
        to: 242,
    },
    // start_value =
    Alternative {
        name: 59,
        when: 0x40000000,
        from: 242,
        to: 242,
    },
    // maybe_semicolon = semicolon
    Alternative {
        name: 60,
        when: 0x40000000,
        from: 242,
        to: 243,
    },
    // maybe_semicolon =
    Alternative {
        name: 60,
        when: 0x1404000000000000000,
        from: 243,
        to: 243,
    },
    // literal = integer
    Alternative {
        name: 61,
        when: 0x800000004,
        from: 243,
        to: 244,
    },
    // literal = truth
    Alternative {
        name: 61,
        when: 0x200000000000,
        from: 244,
        to: 245,
    },
    // integer = minus number
    Alternative {
        name: 62,
        when: 0x800000000,
        from: 245,
        to: 247,
    },
    // integer = number
    Alternative {
        name: 62,
        when: 0x4,
        from: 247,
        to: 248,
    },
    // data_type = name
    Alternative {
        name: 63,
        when: 0x1ffe33,
        from: 248,
        to: 249,
    },
    // data_type = own_fields
    Alternative {
        name: 63,
        when: 0x100000000000000,
        from: 249,
        to: 250,
    },
    // data_head = begin_word
    Alternative {
        name: 64,
        when: 0x4000000000000000,
        from: 250,
        to: 251,
    },
    // data_values = data_value data_values
    Alternative {
        name: 65,
        when: 0x1ffe01,
        from: 251,
        to: 253,
    },
    // data_values =
    Alternative {
        name: 65,
        when: 0x400000000000000000,
        from: 253,
        to: 253,
    },
    // data_value = word path_steps assign literal semicolon
    Alternative {
        name: 66,
        when: 0x1ffe01,
        from: 253,
        to: 258,
    },
    // path_steps = path_step path_steps
    Alternative {
        name: 67,
        when: 0x108000000,
        from: 258,
        to: 260,
    },
    // path_steps =
    Alternative {
        name: 67,
        when: 0x400000,
        from: 260,
        to: 260,
    },
    // path_step = dot field
    Alternative {
        name: 68,
        when: 0x100000000,
        from: 260,
        to: 262,
    },
    // path_step = bracket_open integer bracket_close
    Alternative {
        name: 68,
        when: 0x8000000,
        from: 262,
        to: 265,
    },
    // plain_hash =
    Alternative {
        name: 69,
        when: 0xffd4a400000,
        from: 265,
        to: 265,
    },
    // quoted_hash =
    Alternative {
        name: 70,
        when: 0x102000000,
        from: 265,
        to: 265,
    },
    // numbered_hash = number
    Alternative {
        name: 71,
        when: 0x4,
        from: 265,
        to: 266,
    },
    // first_argument = argument_value
    Alternative {
        name: 72,
        when: 0xc00000,
        from: 266,
        to: 267,
    },
    // argument_value = assign expression
    Alternative {
        name: 73,
        when: 0x400000,
        from: 267,
        to: 269,
    },
    // argument_value = arrow expression
    Alternative {
        name: 73,
        when: 0x800000,
        from: 269,
        to: 271,
    },
    // more_arguments = next_argument more_arguments
    Alternative {
        name: 74,
        when: 0x80000000,
        from: 271,
        to: 273,
    },
    // more_arguments =
    Alternative {
        name: 74,
        when: 0x4000000,
        from: 273,
        to: 273,
    },
    // next_argument = comma word argument_value
    Alternative {
        name: 75,
        when: 0x80000000,
        from: 273,
        to: 276,
    },
    // body = begin_word list
    Alternative {
        name: 76,
        when: 0x4000000000000000,
        from: 276,
        to: 278,
    },
    // body = list
    Alternative {
        name: 76,
        when: 0x4a1421500000002401ffe3b,
        from: 278,
        to: 279,
    },
    // data_body = data_head data_values
    Alternative {
        name: 77,
        when: 0x4000000000000000,
        from: 279,
        to: 281,
    },
    // data_body =
    Alternative {
        name: 77,
        when: 0x400000000000000000,
        from: 281,
        to: 281,
    },
    // list = new_list items
    Alternative {
        name: 78,
        when: 0x5f1fa1500000002401ffe3b,
        from: 281,
        to: 283,
    },
    // new_list =
    Alternative {
        name: 79,
        when: 0x5f1fa1500000002401ffe3b,
        from: 283,
        to: 283,
    },
    // items = item items
    Alternative {
        name: 80,
        when: 0x4a1420000000002401ffe3b,
        from: 283,
        to: 285,
    },
    // items =
    Alternative {
        name: 80,
        when: 0x150b8150000000000000000,
        from: 285,
        to: 285,
    },
    // item = firm_item
    Alternative {
        name: 81,
        when: 0x4a14200000000024000003a,
        from: 285,
        to: 286,
    },
    // item = word word_item
    Alternative {
        name: 81,
        when: 0x1ffe01,
        from: 286,
        to: 288,
    },
    // firm_item = semicolon
    Alternative {
        name: 82,
        when: 0x40000000,
        from: 288,
        to: 289,
    },
    // firm_item = other_statement semicolon
    Alternative {
        name: 82,
        when: 0x4a14200000000020000003a,
        from: 289,
        to: 291,
    },
    // word_item = after_word semicolon
    Alternative {
        name: 83,
        when: 0x10a400000,
        from: 291,
        to: 293,
    },
    // other_statement = hash after_hash
    Alternative {
        name: 84,
        when: 0x200000000,
        from: 293,
        to: 295,
    },
    // other_statement = firm_name after_word
    Alternative {
        name: 84,
        when: 0x32,
        from: 295,
        to: 297,
    },
    // other_statement = area steps assignment
    Alternative {
        name: 84,
        when: 0x8,
        from: 297,
        to: 300,
    },
    // other_statement = if_word first_arm elsifs maybe_else end_if
    Alternative {
        name: 84,
        when: 0x2000000000000000000,
        from: 300,
        to: 305,
    },
    // other_statement = case_word expression of_word branches case_else end_case
    Alternative {
        name: 84,
        when: 0x40000000000000000000,
        from: 305,
        to: 311,
    },
    // other_statement = for_word word assign expression to_word expression maybe_by do_word list end_for
    Alternative {
        name: 84,
        when: 0x100000000000000000000,
        from: 311,
        to: 321,
    },
    // other_statement = while_word expression do_word list end_while
    Alternative {
        name: 84,
        when: 0x2000000000000000000000,
        from: 321,
        to: 326,
    },
    // other_statement = repeat_word list until_word expression end_repeat
    Alternative {
        name: 84,
        when: 0x8000000000000000000000,
        from: 326,
        to: 331,
    },
    // other_statement = single_word
    Alternative {
        name: 84,
        when: 0x40000000000000000000000,
        from: 331,
        to: 332,
    },
    // first_arm = expression then_word list
    Alternative {
        name: 85,
        when: 0x7f00e021ffe3f,
        from: 332,
        to: 335,
    },
    // elsifs = elsif elsifs
    Alternative {
        name: 86,
        when: 0x8000000000000000000,
        from: 335,
        to: 337,
    },
    // elsifs =
    Alternative {
        name: 86,
        when: 0x30000000000000000000,
        from: 337,
        to: 337,
    },
    // elsif = elsif_word expression then_word list
    Alternative {
        name: 87,
        when: 0x8000000000000000000,
        from: 337,
        to: 341,
    },
    // maybe_else = else_word list
    Alternative {
        name: 88,
        when: 0x10000000000000000000,
        from: 341,
        to: 343,
    },
    // maybe_else =
    Alternative {
        name: 88,
        when: 0x20000000000000000000,
        from: 343,
        to: 343,
    },
    // maybe_by = by_word literal
    Alternative {
        name: 89,
        when: 0x400000000000000000000,
        from: 343,
        to: 345,
    },
    // maybe_by =
    Alternative {
        name: 89,
        when: 0x800000000000000000000,
        from: 345,
        to: 345,
    },
    // branches = new_branches label case_items
    Alternative {
        name: 90,
        when: 0x2008001ffe05,
        from: 345,
        to: 348,
    },
    // branches =
    Alternative {
        name: 90,
        when: 0x90000000000000000000,
        from: 348,
        to: 348,
    },
    // new_branches =
    Alternative {
        name: 91,
        when: 0x2008001ffe05,
        from: 348,
        to: 348,
    },
    // label = choice label_rest
    Alternative {
        name: 92,
        when: 0x2008001ffe05,
        from: 348,
        to: 350,
    },
    // label_rest = first_range more_choices colon
    Alternative {
        name: 93,
        when: 0xa1000000,
        from: 350,
        to: 353,
    },
    // first_range = dots choice
    Alternative {
        name: 94,
        when: 0x1000000,
        from: 353,
        to: 355,
    },
    // first_range =
    Alternative {
        name: 94,
        when: 0xa0000000,
        from: 355,
        to: 355,
    },
    // more_choices = next_choice more_choices
    Alternative {
        name: 95,
        when: 0x80000000,
        from: 355,
        to: 357,
    },
    // more_choices =
    Alternative {
        name: 95,
        when: 0x20000000,
        from: 357,
        to: 357,
    },
    // next_choice = comma choice next_range
    Alternative {
        name: 96,
        when: 0x80000000,
        from: 357,
        to: 360,
    },
    // next_range = dots choice
    Alternative {
        name: 97,
        when: 0x1000000,
        from: 360,
        to: 362,
    },
    // next_range =
    Alternative {
        name: 97,
        when: 0xa0000000,
        from: 362,
        to: 362,
    },
    // choice = literal_choice
    Alternative {
        name: 98,
        when: 0x200800000004,
        from: 362,
        to: 363,
    },
    // choice = word word_choice
    Alternative {
        name: 98,
        when: 0x1ffe01,
        from: 363,
        to: 365,
    },
    // literal_choice = literal
    Alternative {
        name: 99,
        when: 0x200800000004,
        from: 365,
        to: 366,
    },
    // word_choice =
    Alternative {
        name: 100,
        when: 0xa1000000,
        from: 366,
        to: 366,
    },
    // case_items = case_item case_items
    Alternative {
        name: 101,
        when: 0x4a142000000200a401ffe3f,
        from: 366,
        to: 368,
    },
    // case_items =
    Alternative {
        name: 101,
        when: 0x90000000000000000000,
        from: 368,
        to: 368,
    },
    // case_item = firm_item
    Alternative {
        name: 102,
        when: 0x4a14200000000024000003a,
        from: 368,
        to: 369,
    },
    // case_item = literal_choice label_rest
    Alternative {
        name: 102,
        when: 0x200800000004,
        from: 369,
        to: 371,
    },
    // case_item = word after_case_word
    Alternative {
        name: 102,
        when: 0x1ffe01,
        from: 371,
        to: 373,
    },
    // after_case_word = word_choice label_rest
    Alternative {
        name: 103,
        when: 0xa1000000,
        from: 373,
        to: 375,
    },
    // after_case_word = word_item
    Alternative {
        name: 103,
        when: 0x10a400000,
        from: 375,
        to: 376,
    },
    // case_else = else_word maybe_colon list
    Alternative {
        name: 104,
        when: 0x10000000000000000000,
        from: 376,
        to: 379,
    },
    // case_else =
    Alternative {
        name: 104,
        when: 0x80000000000000000000,
        from: 379,
        to: 379,
    },
    // maybe_colon = colon
    Alternative {
        name: 105,
        when: 0x20000000,
        from: 379,
        to: 380,
    },
    // maybe_colon =
    Alternative {
        name: 105,
        when: 0x4a1c20000000002401ffe3b,
        from: 380,
        to: 380,
    },
    // after_word = call_arguments
    Alternative {
        name: 106,
        when: 0x2000000,
        from: 380,
        to: 381,
    },
    // after_word = dot after_dot
    Alternative {
        name: 106,
        when: 0x100000000,
        from: 381,
        to: 383,
    },
    // after_word = maybe_index assignment
    Alternative {
        name: 106,
        when: 0x8400000,
        from: 383,
        to: 385,
    },
    // after_dot = free_word plain_second after_second
    Alternative {
        name: 107,
        when: 0x40,
        from: 385,
        to: 388,
    },
    // after_dot = free_prefix after_prefix
    Alternative {
        name: 107,
        when: 0x80,
        from: 388,
        to: 390,
    },
    // after_dot = free_numbered plain_second call_arguments
    Alternative {
        name: 107,
        when: 0x100,
        from: 390,
        to: 393,
    },
    // after_dot = quoted quoted_second call_arguments
    Alternative {
        name: 107,
        when: 0x2,
        from: 393,
        to: 396,
    },
    // after_prefix = numbered_second call_arguments
    Alternative {
        name: 108,
        when: 0x4,
        from: 396,
        to: 398,
    },
    // after_prefix = plain_second after_second
    Alternative {
        name: 108,
        when: 0x10a400000,
        from: 398,
        to: 400,
    },
    // after_second = call_arguments
    Alternative {
        name: 109,
        when: 0x2000000,
        from: 400,
        to: 401,
    },
    // after_second = steps assignment
    Alternative {
        name: 109,
        when: 0x108400000,
        from: 401,
        to: 403,
    },
    // after_hash = free_word plain_hash after_word
    Alternative {
        name: 110,
        when: 0x40,
        from: 403,
        to: 406,
    },
    // after_hash = free_prefix after_hash_prefix
    Alternative {
        name: 110,
        when: 0x80,
        from: 406,
        to: 408,
    },
    // after_hash = free_numbered plain_hash called
    Alternative {
        name: 110,
        when: 0x100,
        from: 408,
        to: 411,
    },
    // after_hash = quoted quoted_hash called
    Alternative {
        name: 110,
        when: 0x2,
        from: 411,
        to: 414,
    },
    // after_hash_prefix = numbered_hash called
    Alternative {
        name: 111,
        when: 0x4,
        from: 414,
        to: 416,
    },
    // after_hash_prefix = plain_hash after_word
    Alternative {
        name: 111,
        when: 0x10a400000,
        from: 416,
        to: 418,
    },
    // assignment = assign value
    Alternative {
        name: 112,
        when: 0x400000,
        from: 418,
        to: 420,
    },
    // maybe_index = first_index steps
    Alternative {
        name: 113,
        when: 0x8000000,
        from: 420,
        to: 422,
    },
    // maybe_index =
    Alternative {
        name: 113,
        when: 0xffc40400000,
        from: 422,
        to: 422,
    },
    // first_index = bracket_open expression bracket_close
    Alternative {
        name: 114,
        when: 0x8000000,
        from: 422,
        to: 425,
    },
    // plain_second =
    Alternative {
        name: 115,
        when: 0xffd4a400000,
        from: 425,
        to: 425,
    },
    // quoted_second =
    Alternative {
        name: 116,
        when: 0x2000000,
        from: 425,
        to: 425,
    },
    // numbered_second = number
    Alternative {
        name: 117,
        when: 0x4,
        from: 425,
        to: 426,
    },
    // called = call_arguments
    Alternative {
        name: 118,
        when: 0x2000000,
        from: 426,
        to: 427,
    },
    // called = dot second_name call_arguments
    Alternative {
        name: 118,
        when: 0x100000000,
        from: 427,
        to: 430,
    },
    // second_name = free_word plain_second
    Alternative {
        name: 119,
        when: 0x40,
        from: 430,
        to: 432,
    },
    // second_name = free_prefix second_number
    Alternative {
        name: 119,
        when: 0x80,
        from: 432,
        to: 434,
    },
    // second_name = free_numbered plain_second
    Alternative {
        name: 119,
        when: 0x100,
        from: 434,
        to: 436,
    },
    // second_name = quoted quoted_second
    Alternative {
        name: 119,
        when: 0x2,
        from: 436,
        to: 438,
    },
    // second_number = numbered_second
    Alternative {
        name: 120,
        when: 0x4,
        from: 438,
        to: 439,
    },
    // second_number = plain_second
    Alternative {
        name: 120,
        when: 0x2000000,
        from: 439,
        to: 440,
    },
    // call_arguments = paren_open arguments paren_close
    Alternative {
        name: 121,
        when: 0x2000000,
        from: 440,
        to: 443,
    },
    // arguments = word after_argument_word
    Alternative {
        name: 122,
        when: 0x1ffe01,
        from: 443,
        to: 445,
    },
    // arguments = other_factor chain
    Alternative {
        name: 122,
        when: 0x7f00e0200003e,
        from: 445,
        to: 447,
    },
    // arguments =
    Alternative {
        name: 122,
        when: 0x4000000,
        from: 447,
        to: 447,
    },
    // after_argument_word = first_argument more_arguments
    Alternative {
        name: 123,
        when: 0xc00000,
        from: 447,
        to: 449,
    },
    // after_argument_word = second_read chain
    Alternative {
        name: 123,
        when: 0xffd0c000000,
        from: 449,
        to: 451,
    },
    // value = word value_after_word
    Alternative {
        name: 124,
        when: 0x1ffe01,
        from: 451,
        to: 453,
    },
    // value = hash value_after_hash
    Alternative {
        name: 124,
        when: 0x200000000,
        from: 453,
        to: 455,
    },
    // value = firm_name value_after_word
    Alternative {
        name: 124,
        when: 0x32,
        from: 455,
        to: 457,
    },
    // value = firm_factor chain
    Alternative {
        name: 124,
        when: 0x7f00c0200000c,
        from: 457,
        to: 459,
    },
    // value_after_word = call_arguments
    Alternative {
        name: 125,
        when: 0x2000000,
        from: 459,
        to: 460,
    },
    // value_after_word = dot value_after_dot
    Alternative {
        name: 125,
        when: 0x100000000,
        from: 460,
        to: 462,
    },
    // value_after_word = first_read chain
    Alternative {
        name: 125,
        when: 0xffc48000000,
        from: 462,
        to: 464,
    },
    // value_after_dot = free_word plain_second value_after_second
    Alternative {
        name: 126,
        when: 0x40,
        from: 464,
        to: 467,
    },
    // value_after_dot = free_prefix value_after_prefix
    Alternative {
        name: 126,
        when: 0x80,
        from: 467,
        to: 469,
    },
    // value_after_dot = free_numbered plain_second call_arguments
    Alternative {
        name: 126,
        when: 0x100,
        from: 469,
        to: 472,
    },
    // value_after_dot = quoted quoted_second call_arguments
    Alternative {
        name: 126,
        when: 0x2,
        from: 472,
        to: 475,
    },
    // value_after_prefix = numbered_second call_arguments
    Alternative {
        name: 127,
        when: 0x4,
        from: 475,
        to: 477,
    },
    // value_after_prefix = plain_second value_after_second
    Alternative {
        name: 127,
        when: 0xffd4a000000,
        from: 477,
        to: 479,
    },
    // value_after_second = call_arguments
    Alternative {
        name: 128,
        when: 0x2000000,
        from: 479,
        to: 480,
    },
    // value_after_second = second_read chain
    Alternative {
        name: 128,
        when: 0xffd48000000,
        from: 480,
        to: 482,
    },
    // value_after_hash = free_word plain_hash value_after_word
    Alternative {
        name: 129,
        when: 0x40,
        from: 482,
        to: 485,
    },
    // value_after_hash = free_prefix value_after_hash_prefix
    Alternative {
        name: 129,
        when: 0x80,
        from: 485,
        to: 487,
    },
    // value_after_hash = free_numbered plain_hash called
    Alternative {
        name: 129,
        when: 0x100,
        from: 487,
        to: 490,
    },
    // value_after_hash = quoted quoted_hash called
    Alternative {
        name: 129,
        when: 0x2,
        from: 490,
        to: 493,
    },
    // value_after_hash_prefix = numbered_hash called
    Alternative {
        name: 130,
        when: 0x4,
        from: 493,
        to: 495,
    },
    // value_after_hash_prefix = plain_hash value_after_word
    Alternative {
        name: 130,
        when: 0xffd4a000000,
        from: 495,
        to: 497,
    },
    // first_read = maybe_index
    Alternative {
        name: 131,
        when: 0xffc48000000,
        from: 497,
        to: 498,
    },
    // second_read = steps
    Alternative {
        name: 132,
        when: 0xffd4c000000,
        from: 498,
        to: 499,
    },
    // chain = product_tail sum_tail compare_tail equal_tail and_tail xor_tail or_tail
    Alternative {
        name: 133,
        when: 0xffc44000000,
        from: 499,
        to: 506,
    },
];

const SYMBOLS: [Symbol; 506] = [
    Symbol::Name(1),
    Symbol::Token(17),
    Symbol::Token(18),
    Symbol::Token(19),
    Symbol::Token(20),
    Symbol::Token(0),
    Symbol::Token(9),
    Symbol::Token(10),
    Symbol::Token(11),
    Symbol::Token(12),
    Symbol::Token(13),
    Symbol::Token(14),
    Symbol::Token(15),
    Symbol::Token(16),
    Symbol::Token(1),
    Symbol::Token(4),
    Symbol::Token(2),
    Symbol::Token(5),
    Symbol::Token(6),
    Symbol::Token(7),
    Symbol::Name(7),
    Symbol::Name(5),
    Symbol::Name(6),
    Symbol::Name(5),
    Symbol::Token(43),
    Symbol::Name(7),
    Symbol::Name(10),
    Symbol::Name(8),
    Symbol::Name(9),
    Symbol::Name(8),
    Symbol::Token(42),
    Symbol::Name(10),
    Symbol::Name(13),
    Symbol::Name(11),
    Symbol::Name(12),
    Symbol::Name(11),
    Symbol::Token(41),
    Symbol::Name(13),
    Symbol::Name(16),
    Symbol::Name(14),
    Symbol::Name(15),
    Symbol::Name(14),
    Symbol::Token(39),
    Symbol::Name(16),
    Symbol::Token(40),
    Symbol::Name(16),
    Symbol::Name(19),
    Symbol::Name(17),
    Symbol::Name(18),
    Symbol::Name(17),
    Symbol::Token(38),
    Symbol::Name(19),
    Symbol::Name(22),
    Symbol::Name(20),
    Symbol::Name(21),
    Symbol::Name(20),
    Symbol::Token(34),
    Symbol::Name(22),
    Symbol::Token(35),
    Symbol::Name(22),
    Symbol::Name(25),
    Symbol::Name(23),
    Symbol::Name(24),
    Symbol::Name(23),
    Symbol::Token(36),
    Symbol::Name(25),
    Symbol::Token(37),
    Symbol::Name(25),
    Symbol::Name(26),
    Symbol::Name(27),
    Symbol::Name(0),
    Symbol::Name(31),
    Symbol::Name(28),
    Symbol::Name(29),
    Symbol::Token(33),
    Symbol::Name(3),
    Symbol::Name(31),
    Symbol::Name(2),
    Symbol::Name(31),
    Symbol::Name(33),
    Symbol::Name(31),
    Symbol::Token(2),
    Symbol::Token(45),
    Symbol::Token(25),
    Symbol::Name(4),
    Symbol::Token(26),
    Symbol::Name(30),
    Symbol::Token(34),
    Symbol::Name(25),
    Symbol::Token(35),
    Symbol::Name(25),
    Symbol::Token(44),
    Symbol::Name(25),
    Symbol::Token(46),
    Symbol::Token(25),
    Symbol::Name(4),
    Symbol::Token(26),
    Symbol::Token(47),
    Symbol::Token(25),
    Symbol::Token(11),
    Symbol::Token(22),
    Symbol::Name(4),
    Symbol::Token(31),
    Symbol::Token(12),
    Symbol::Token(22),
    Symbol::Name(4),
    Symbol::Token(26),
    Symbol::Token(48),
    Symbol::Token(25),
    Symbol::Token(13),
    Symbol::Token(22),
    Symbol::Name(4),
    Symbol::Token(31),
    Symbol::Token(9),
    Symbol::Token(22),
    Symbol::Name(4),
    Symbol::Token(31),
    Symbol::Token(14),
    Symbol::Token(22),
    Symbol::Name(4),
    Symbol::Token(26),
    Symbol::Token(49),
    Symbol::Token(25),
    Symbol::Token(15),
    Symbol::Token(22),
    Symbol::Name(4),
    Symbol::Token(31),
    Symbol::Token(10),
    Symbol::Token(22),
    Symbol::Name(4),
    Symbol::Token(31),
    Symbol::Token(11),
    Symbol::Token(22),
    Symbol::Name(4),
    Symbol::Token(26),
    Symbol::Token(50),
    Symbol::Token(25),
    Symbol::Token(9),
    Symbol::Token(22),
    Symbol::Name(4),
    Symbol::Token(31),
    Symbol::Token(16),
    Symbol::Token(22),
    Symbol::Name(4),
    Symbol::Token(26),
    Symbol::Name(32),
    Symbol::Name(31),
    Symbol::Token(32),
    Symbol::Name(3),
    Symbol::Token(27),
    Symbol::Name(4),
    Symbol::Token(28),
    Symbol::Token(3),
    Symbol::Name(35),
    Symbol::Name(36),
    Symbol::Name(37),
    Symbol::Name(36),
    Symbol::Token(63),
    Symbol::Name(38),
    Symbol::Name(41),
    Symbol::Name(76),
    Symbol::Token(64),
    Symbol::Token(65),
    Symbol::Name(38),
    Symbol::Token(29),
    Symbol::Name(40),
    Symbol::Name(41),
    Symbol::Name(76),
    Symbol::Token(66),
    Symbol::Token(67),
    Symbol::Name(38),
    Symbol::Name(41),
    Symbol::Name(76),
    Symbol::Token(68),
    Symbol::Token(69),
    Symbol::Name(38),
    Symbol::Name(63),
    Symbol::Name(77),
    Symbol::Token(70),
    Symbol::Token(71),
    Symbol::Name(38),
    Symbol::Name(57),
    Symbol::Token(72),
    Symbol::Name(39),
    Symbol::Name(0),
    Symbol::Name(2),
    Symbol::Token(51),
    Symbol::Token(53),
    Symbol::Name(42),
    Symbol::Name(41),
    Symbol::Name(43),
    Symbol::Name(47),
    Symbol::Token(59),
    Symbol::Name(44),
    Symbol::Name(45),
    Symbol::Token(61),
    Symbol::Token(58),
    Symbol::Token(60),
    Symbol::Name(46),
    Symbol::Name(45),
    Symbol::Name(0),
    Symbol::Token(22),
    Symbol::Name(61),
    Symbol::Token(30),
    Symbol::Name(48),
    Symbol::Name(49),
    Symbol::Name(0),
    Symbol::Name(50),
    Symbol::Name(49),
    Symbol::Name(51),
    Symbol::Name(47),
    Symbol::Token(31),
    Symbol::Name(0),
    Symbol::Name(52),
    Symbol::Name(53),
    Symbol::Name(59),
    Symbol::Token(30),
    Symbol::Token(29),
    Symbol::Token(51),
    Symbol::Token(52),
    Symbol::Name(39),
    Symbol::Name(55),
    Symbol::Name(54),
    Symbol::Name(53),
    Symbol::Token(54),
    Symbol::Token(27),
    Symbol::Name(62),
    Symbol::Token(24),
    Symbol::Name(62),
    Symbol::Token(28),
    Symbol::Token(55),
    Symbol::Name(56),
    Symbol::Name(47),
    Symbol::Token(57),
    Symbol::Token(56),
    Symbol::Name(58),
    Symbol::Name(47),
    Symbol::Token(57),
    Symbol::Name(60),
    Symbol::Token(56),
    Symbol::Token(22),
    Symbol::Name(61),
    Symbol::Token(30),
    Symbol::Name(62),
    Symbol::Token(45),
    Symbol::Token(35),
    Symbol::Token(2),
    Symbol::Token(2),
    Symbol::Name(39),
    Symbol::Name(57),
    Symbol::Token(62),
    Symbol::Name(66),
    Symbol::Name(65),
    Symbol::Name(0),
    Symbol::Name(67),
    Symbol::Token(22),
    Symbol::Name(61),
    Symbol::Token(30),
    Symbol::Name(68),
    Symbol::Name(67),
    Symbol::Token(32),
    Symbol::Name(3),
    Symbol::Token(27),
    Symbol::Name(62),
    Symbol::Token(28),
    Symbol::Token(2),
    Symbol::Name(73),
    Symbol::Token(22),
    Symbol::Name(4),
    Symbol::Token(23),
    Symbol::Name(4),
    Symbol::Name(75),
    Symbol::Name(74),
    Symbol::Token(31),
    Symbol::Name(0),
    Symbol::Name(73),
    Symbol::Token(62),
    Symbol::Name(78),
    Symbol::Name(78),
    Symbol::Name(64),
    Symbol::Name(65),
    Symbol::Name(79),
    Symbol::Name(80),
    Symbol::Name(81),
    Symbol::Name(80),
    Symbol::Name(82),
    Symbol::Name(0),
    Symbol::Name(83),
    Symbol::Token(30),
    Symbol::Name(84),
    Symbol::Token(30),
    Symbol::Name(106),
    Symbol::Token(30),
    Symbol::Token(33),
    Symbol::Name(110),
    Symbol::Name(2),
    Symbol::Name(106),
    Symbol::Name(33),
    Symbol::Name(31),
    Symbol::Name(112),
    Symbol::Token(73),
    Symbol::Name(85),
    Symbol::Name(86),
    Symbol::Name(88),
    Symbol::Token(77),
    Symbol::Token(78),
    Symbol::Name(4),
    Symbol::Token(55),
    Symbol::Name(90),
    Symbol::Name(104),
    Symbol::Token(79),
    Symbol::Token(80),
    Symbol::Name(0),
    Symbol::Token(22),
    Symbol::Name(4),
    Symbol::Token(81),
    Symbol::Name(4),
    Symbol::Name(89),
    Symbol::Token(83),
    Symbol::Name(78),
    Symbol::Token(84),
    Symbol::Token(85),
    Symbol::Name(4),
    Symbol::Token(83),
    Symbol::Name(78),
    Symbol::Token(86),
    Symbol::Token(87),
    Symbol::Name(78),
    Symbol::Token(88),
    Symbol::Name(4),
    Symbol::Token(89),
    Symbol::Token(90),
    Symbol::Name(4),
    Symbol::Token(74),
    Symbol::Name(78),
    Symbol::Name(87),
    Symbol::Name(86),
    Symbol::Token(75),
    Symbol::Name(4),
    Symbol::Token(74),
    Symbol::Name(78),
    Symbol::Token(76),
    Symbol::Name(78),
    Symbol::Token(82),
    Symbol::Name(61),
    Symbol::Name(91),
    Symbol::Name(92),
    Symbol::Name(101),
    Symbol::Name(98),
    Symbol::Name(93),
    Symbol::Name(94),
    Symbol::Name(95),
    Symbol::Token(29),
    Symbol::Token(24),
    Symbol::Name(98),
    Symbol::Name(96),
    Symbol::Name(95),
    Symbol::Token(31),
    Symbol::Name(98),
    Symbol::Name(97),
    Symbol::Token(24),
    Symbol::Name(98),
    Symbol::Name(99),
    Symbol::Name(0),
    Symbol::Name(100),
    Symbol::Name(61),
    Symbol::Name(102),
    Symbol::Name(101),
    Symbol::Name(82),
    Symbol::Name(99),
    Symbol::Name(93),
    Symbol::Name(0),
    Symbol::Name(103),
    Symbol::Name(100),
    Symbol::Name(93),
    Symbol::Name(83),
    Symbol::Token(76),
    Symbol::Name(105),
    Symbol::Name(78),
    Symbol::Token(29),
    Symbol::Name(121),
    Symbol::Token(32),
    Symbol::Name(107),
    Symbol::Name(113),
    Symbol::Name(112),
    Symbol::Token(6),
    Symbol::Name(115),
    Symbol::Name(109),
    Symbol::Token(7),
    Symbol::Name(108),
    Symbol::Token(8),
    Symbol::Name(115),
    Symbol::Name(121),
    Symbol::Token(1),
    Symbol::Name(116),
    Symbol::Name(121),
    Symbol::Name(117),
    Symbol::Name(121),
    Symbol::Name(115),
    Symbol::Name(109),
    Symbol::Name(121),
    Symbol::Name(31),
    Symbol::Name(112),
    Symbol::Token(6),
    Symbol::Name(69),
    Symbol::Name(106),
    Symbol::Token(7),
    Symbol::Name(111),
    Symbol::Token(8),
    Symbol::Name(69),
    Symbol::Name(118),
    Symbol::Token(1),
    Symbol::Name(70),
    Symbol::Name(118),
    Symbol::Name(71),
    Symbol::Name(118),
    Symbol::Name(69),
    Symbol::Name(106),
    Symbol::Token(22),
    Symbol::Name(124),
    Symbol::Name(114),
    Symbol::Name(31),
    Symbol::Token(27),
    Symbol::Name(4),
    Symbol::Token(28),
    Symbol::Token(2),
    Symbol::Name(121),
    Symbol::Token(32),
    Symbol::Name(119),
    Symbol::Name(121),
    Symbol::Token(6),
    Symbol::Name(115),
    Symbol::Token(7),
    Symbol::Name(120),
    Symbol::Token(8),
    Symbol::Name(115),
    Symbol::Token(1),
    Symbol::Name(116),
    Symbol::Name(117),
    Symbol::Name(115),
    Symbol::Token(25),
    Symbol::Name(122),
    Symbol::Token(26),
    Symbol::Name(0),
    Symbol::Name(123),
    Symbol::Name(27),
    Symbol::Name(133),
    Symbol::Name(72),
    Symbol::Name(74),
    Symbol::Name(132),
    Symbol::Name(133),
    Symbol::Name(0),
    Symbol::Name(125),
    Symbol::Token(33),
    Symbol::Name(129),
    Symbol::Name(2),
    Symbol::Name(125),
    Symbol::Name(29),
    Symbol::Name(133),
    Symbol::Name(121),
    Symbol::Token(32),
    Symbol::Name(126),
    Symbol::Name(131),
    Symbol::Name(133),
    Symbol::Token(6),
    Symbol::Name(115),
    Symbol::Name(128),
    Symbol::Token(7),
    Symbol::Name(127),
    Symbol::Token(8),
    Symbol::Name(115),
    Symbol::Name(121),
    Symbol::Token(1),
    Symbol::Name(116),
    Symbol::Name(121),
    Symbol::Name(117),
    Symbol::Name(121),
    Symbol::Name(115),
    Symbol::Name(128),
    Symbol::Name(121),
    Symbol::Name(132),
    Symbol::Name(133),
    Symbol::Token(6),
    Symbol::Name(69),
    Symbol::Name(125),
    Symbol::Token(7),
    Symbol::Name(130),
    Symbol::Token(8),
    Symbol::Name(69),
    Symbol::Name(118),
    Symbol::Token(1),
    Symbol::Name(70),
    Symbol::Name(118),
    Symbol::Name(71),
    Symbol::Name(118),
    Symbol::Name(69),
    Symbol::Name(125),
    Symbol::Name(113),
    Symbol::Name(31),
    Symbol::Name(23),
    Symbol::Name(20),
    Symbol::Name(17),
    Symbol::Name(14),
    Symbol::Name(11),
    Symbol::Name(8),
    Symbol::Name(5),
];

/// The table of the grammar, for a text that is one `source`.
pub fn scl() -> Language
    ensures ll1 { IsTrue (is_ll1 result) }
    ensures grammar { grammar_of result ≡ scl_grammar }
    ensures start { result.start ≡ 34 }
{
    Language {
        rules: &RULES,
        alternatives: &ALTERNATIVES,
        symbols: &SYMBOLS,
        start: 34,
        kinds: 95,
    }
}

/// The table of the grammar, for a text that is one `expression`.
pub fn scl_expression() -> Language
    ensures ll1 { IsTrue (is_ll1 result) }
    ensures grammar { grammar_of result ≡ scl_grammar }
    ensures start { result.start ≡ 4 }
{
    Language {
        rules: &RULES,
        alternatives: &ALTERNATIVES,
        symbols: &SYMBOLS,
        start: 4,
        kinds: 95,
    }
}

/// The table of the grammar, for a text that is one `name`.
pub fn scl_name() -> Language
    ensures ll1 { IsTrue (is_ll1 result) }
    ensures grammar { grammar_of result ≡ scl_grammar }
    ensures start { result.start ≡ 39 }
{
    Language {
        rules: &RULES,
        alternatives: &ALTERNATIVES,
        symbols: &SYMBOLS,
        start: 39,
        kinds: 95,
    }
}
