// The one table of byte classes: 1 for a hex digit, 2 for a byte forbidden in a name, 4 for CR and LF, added up.
#![tactic(auto)]

ghost use Rattle.std.specs.Prelude.{◌≡◌};
ghost use Rattle.class.specs.Class.{class_table, classes_of, is_hex, is_line_end};

const CLASS: [u8; 256] = [
    2, // 0 NUL
    2, // 1
    2, // 2
    2, // 3
    2, // 4
    2, // 5
    2, // 6
    2, // 7
    2, // 8
    2, // 9 TAB
    6, // 10 LF
    2, // 11
    2, // 12
    6, // 13 CR
    2, // 14
    2, // 15
    2, // 16
    2, // 17
    2, // 18
    2, // 19
    2, // 20
    2, // 21
    2, // 22
    2, // 23
    2, // 24
    2, // 25
    2, // 26
    2, // 27
    2, // 28
    2, // 29
    2, // 30
    2, // 31
    2, // 32 space
    0, // 33 !
    0, // 34 "
    0, // 35 #
    0, // 36 $
    0, // 37 %
    0, // 38 &
    0, // 39 '
    0, // 40 (
    0, // 41 )
    2, // 42 *
    0, // 43 +
    0, // 44 ,
    0, // 45 -
    0, // 46 .
    0, // 47 /
    1, // 48 0
    1, // 49 1
    1, // 50 2
    1, // 51 3
    1, // 52 4
    1, // 53 5
    1, // 54 6
    1, // 55 7
    1, // 56 8
    1, // 57 9
    2, // 58 :
    0, // 59 ;
    0, // 60 <
    0, // 61 =
    0, // 62 >
    2, // 63 ?
    0, // 64 @
    1, // 65 A
    1, // 66 B
    1, // 67 C
    1, // 68 D
    1, // 69 E
    1, // 70 F
    0, // 71 G
    0, // 72 H
    0, // 73 I
    0, // 74 J
    0, // 75 K
    0, // 76 L
    0, // 77 M
    0, // 78 N
    0, // 79 O
    0, // 80 P
    0, // 81 Q
    0, // 82 R
    0, // 83 S
    0, // 84 T
    0, // 85 U
    0, // 86 V
    0, // 87 W
    0, // 88 X
    0, // 89 Y
    0, // 90 Z
    2, // 91 [
    2, // 92 backslash
    0, // 93 ]
    2, // 94 ^
    0, // 95 _
    0, // 96 `
    1, // 97 a
    1, // 98 b
    1, // 99 c
    1, // 100 d
    1, // 101 e
    1, // 102 f
    0, // 103 g
    0, // 104 h
    0, // 105 i
    0, // 106 j
    0, // 107 k
    0, // 108 l
    0, // 109 m
    0, // 110 n
    0, // 111 o
    0, // 112 p
    0, // 113 q
    0, // 114 r
    0, // 115 s
    0, // 116 t
    0, // 117 u
    0, // 118 v
    0, // 119 w
    0, // 120 x
    0, // 121 y
    0, // 122 z
    0, // 123 {
    0, // 124 |
    0, // 125 }
    2, // 126 ~
    2, // 127 DEL
    0, // 128
    0, // 129
    0, // 130
    0, // 131
    0, // 132
    0, // 133
    0, // 134
    0, // 135
    0, // 136
    0, // 137
    0, // 138
    0, // 139
    0, // 140
    0, // 141
    0, // 142
    0, // 143
    0, // 144
    0, // 145
    0, // 146
    0, // 147
    0, // 148
    0, // 149
    0, // 150
    0, // 151
    0, // 152
    0, // 153
    0, // 154
    0, // 155
    0, // 156
    0, // 157
    0, // 158
    0, // 159
    0, // 160
    0, // 161
    0, // 162
    0, // 163
    0, // 164
    0, // 165
    0, // 166
    0, // 167
    0, // 168
    0, // 169
    0, // 170
    0, // 171
    0, // 172
    0, // 173
    0, // 174
    0, // 175
    0, // 176
    0, // 177
    0, // 178
    0, // 179
    0, // 180
    0, // 181
    0, // 182
    0, // 183
    0, // 184
    0, // 185
    0, // 186
    0, // 187
    0, // 188
    0, // 189
    0, // 190
    0, // 191
    0, // 192
    0, // 193
    0, // 194
    0, // 195
    0, // 196
    0, // 197
    0, // 198
    0, // 199
    0, // 200
    0, // 201
    0, // 202
    0, // 203
    0, // 204
    0, // 205
    0, // 206
    0, // 207
    0, // 208
    0, // 209
    0, // 210
    0, // 211
    0, // 212
    0, // 213
    0, // 214
    0, // 215
    0, // 216
    0, // 217
    0, // 218
    0, // 219
    0, // 220
    0, // 221
    0, // 222
    0, // 223
    0, // 224
    0, // 225
    0, // 226
    0, // 227
    0, // 228
    0, // 229
    0, // 230
    0, // 231
    0, // 232
    0, // 233
    0, // 234
    0, // 235
    0, // 236
    0, // 237
    0, // 238
    0, // 239
    0, // 240
    0, // 241
    0, // 242
    0, // 243
    0, // 244
    0, // 245
    0, // 246
    0, // 247
    0, // 248
    0, // 249
    0, // 250
    0, // 251
    0, // 252
    0, // 253
    0, // 254
    0, // 255
];

// The table, made once and lent down: a const that is read in a loop is rebuilt at each read.
#[tactic(auto, unfolding(crate::specs::Class::class_table, crate::specs::Class::class_of, crate::specs::Class::is_hex, crate::specs::Class::is_forbidden, crate::specs::Class::is_line_end))]
pub fn table() -> [u8; 256]
    ensures { result ≡ class_table }
{
    CLASS
}

// Each class has a test of its own, of one line: one test with the class as a parameter would be no shorter where it is called, and each caller would still
// name the class.
pub fn is_hex(t: &[u8; 256], b: u8) -> bool
    ensures { result ≡ (classes_of t.now).hex b }
{
    t[b as usize] % 2 == 1
}

pub fn is_forbidden(t: &[u8; 256], b: u8) -> bool
    ensures { result ≡ (classes_of t.now).forbidden b }
{
    t[b as usize] / 2 % 2 == 1
}

pub fn is_line_end(t: &[u8; 256], b: u8) -> bool
    ensures { result ≡ (classes_of t.now).line_end b }
{
    t[b as usize] / 4 % 2 == 1
}

// Two of the classes by comparisons alone, with no table and no branch, so that a loop over a block of bytes compiles to vector code. They are the table's
// (`table_classes`, proofs/Classes.antt).
#[tactic(auto, using(crate::proofs::Classes::hex_by_library))]
pub fn is_hex_digit(b: u8) -> bool
    ensures { result ≡ is_hex b }
{
    b.is_ascii_hexdigit()
}

#[tactic(auto, unfolding(crate::specs::Class::is_line_end))]
pub fn is_cr_or_lf(b: u8) -> bool
    ensures { result ≡ is_line_end b }
{
    (b == b'\n') | (b == b'\r')
}
