//! Texts with the answer that the grammar gives, worked out by hand. A row has what differs from
//! the text that reads, the name of the refusal or `Ok`, and its place or count. What differs is
//! `part=piece` or several of them with `;` between; `whole` stands for the whole text, `json` for
//! what the params part is the base64 of, and `before*unit^3*after` for three units between two ends.

/// A text that reads, in its six parts.
pub const VERSION: &str = "003";

pub const HASH: &str = "0000000000000000000000000000000000000000000000000000000000000000";

pub const UUID: &str = "00000000-0000-4000-8000-000000000001";

pub const IV: &str = "00000000000000000000000000000000";

pub const CIPHERTEXT: &str = "AAAAAAAAAAAAAAAAAAAAAA==";

pub const PARAMS: &str =
    "eyJpZGVudGlmaWVyIjoiYWxpY2UiLCJwd19jb3N0IjoxLCJwd19ub25jZSI6IjZlIiwidmVyc2lvbiI6IjAwMyJ9";

/// The whole text, and what its hash covers.
pub const WHOLE: &str =
    "003:0000000000000000000000000000000000000000000000000000000000000000:00000000-0000-4000-8000-000000000001:00000000000000000000000000000000:AAAAAAAAAAAAAAAAAAAAAA==:eyJpZGVudGlmaWVyIjoiYWxpY2UiLCJwd19jb3N0IjoxLCJwd19ub25jZSI6IjZlIiwidmVyc2lvbiI6IjAwMyJ9";

pub const HASHED: &str =
    "003:00000000-0000-4000-8000-000000000001:00000000000000000000000000000000:AAAAAAAAAAAAAAAAAAAAAA==";

/// Whole texts: the number of their parts comes first. The last three are strings of an
/// independent implementation, the third of them without its params part.
pub const TEXTS: &str = r#"
whole=|Parts|1
whole=003|Parts|1
whole=é|Parts|1
whole=:|Parts|2
whole=003:|Parts|2
whole=::::|Parts|5
whole=:::::|Version|0
whole=::::::|Parts|7
whole=é::::::|Parts|7
whole=é:::::|Version|0
whole=003:::::|Hash|4
whole=003:é::::|Hash|4
whole=003:0000000000000000000000000000000000000000000000000000000000000000::::|Uuid|69
whole=003:0000000000000000000000000000000000000000000000000000000000000000:é:::|Uuid|69
whole=003:00000000000000000000000000000000000000000000000000000000000000é:::é:|Hash|4
whole=003:9ffc9328b75d354dce159d4e5d755bbe2236caaba21fd58d90ba6de4195419f8:87ff148f-5dc7-455c-b379-a13a48c54e39:e9fa86d6c2767cd153a7d015fd3334c2:2pFvlcN5NbEe2LsI2J3cPg==:eyJpZGVudGlmaWVyIjoiYWxpY2UiLCJwd19jb3N0IjoxMTAwMDAsInB3X25vbmNlIjoiNmUiLCJ2ZXJzaW9uIjoiMDAzIn0=|Ok|0
whole=003:3a2886550d64ca85a4dc01fb2a86e7d6c7c93c2ca13fbe27a37afb9e4dd55ed3:16fa8660-90c9-4e08-9026-ba81ccd29f52:90125f4a836746abb0d7252f3c555405:G7QBft+rN4Y6fdGYCf2FKw==:eyJpZGVudGlmaWVyIjoiw7wiLCJwd19jb3N0IjoxMTAwMDAsInB3X25vbmNlIjoiNmUiLCJ2ZXJzaW9uIjoiMDAzIn0=|Ok|0
whole=003:3a2886550d64ca85a4dc01fb2a86e7d6c7c93c2ca13fbe27a37afb9e4dd55ed3:16fa8660-90c9-4e08-9026-ba81ccd29f52:90125f4a836746abb0d7252f3c555405:G7QBft+rN4Y6fdGYCf2FKw==|Parts|5
"#;

/// Other parts: the leftmost out of form is refused. Among them are ciphertexts of 15 bytes, of 16
/// with a loose bit, of 17, of 4,096 and more characters, and with padding that is missing, left over
/// or in the middle.
pub const PARTS: &str = r#"
version=003|Ok|0
version=004|Version|0
version=|Version|0
version=3|Version|0
version=0003|Version|0
version=003 |Version|0
version=００３|Version|0
version=003:|Parts|7
hash=|Hash|4
hash=000000000000000000000000000000000000000000000000000000000000000|Hash|4
hash=00000000000000000000000000000000000000000000000000000000000000000|Hash|4
hash=A000000000000000000000000000000000000000000000000000000000000000|Hash|4
hash=000000000000000000000000000000000000000000000000000000000000000F|Hash|4
hash=g000000000000000000000000000000000000000000000000000000000000000|Hash|4
hash=é00000000000000000000000000000000000000000000000000000000000000|Hash|4
hash= 000000000000000000000000000000000000000000000000000000000000000|Hash|4
hash=0123456789abcdef0123456789abcdef0123456789abcdef0123456789abcdef|Ok|0
uuid=|Uuid|69
uuid=00000000-0000-4000-8000-00000000000A|Uuid|69
uuid=00000000-0000-4000-8000-00000000000a|Ok|0
uuid=00000000-0000-4000-8000-00000000000g|Uuid|69
uuid=00000000-0000-4000-8000-00000000001|Uuid|69
uuid=00000000000040008000000000000001|Uuid|69
uuid={00000000-0000-4000-8000-000000000001}|Uuid|69
uuid=0000000-00000-4000-8000-000000000001|Uuid|69
uuid=00000000-0000-4000-8000-0000000000é|Uuid|69
uuid=urn:uuid:00000000-0000-4000-8000-000000000001|Parts|8
uuid=ffffffff-ffff-ffff-ffff-ffffffffffff|Ok|0
iv=|Iv|106
iv=0000000000000000000000000000000|Iv|106
iv=000000000000000000000000000000000|Iv|106
iv=A0000000000000000000000000000000|Iv|106
iv=é000000000000000000000000000000|Iv|106
iv=fedcba98765432100123456789abcdef|Ok|0
ciphertext=|Ciphertext|139
ciphertext=AAAAAAAAAAAAAAAAAAAA|Ciphertext|139
ciphertext=AAAAAAAAAAAAAAAAAAAAAB==|Ciphertext|139
ciphertext=AAAAAAAAAAAAAAAAAAAAAAA=|Ciphertext|139
ciphertext=AAAAAAAAAAAAAAAAAAAAAA|Ciphertext|139
ciphertext=AAAAAAAAAAAAAAAAAAAAAA=|Ciphertext|139
ciphertext=AAAAAAAAAAAAAAAAAAAAAA===|Ciphertext|139
ciphertext=AAAAAAAAAAAAAAAAAAAAAA==AAAAAAAAAAAAAAAAAAAAAA==|Ciphertext|139
ciphertext=AAAAAAAAAAAAAAAAAAAA-A==|Ciphertext|139
ciphertext=AAAAAAAAAA AAAAAAAAAAAA==|Ciphertext|139
ciphertext=éAAAAAAAAAAAAAAAAAAAA==|Ciphertext|139
ciphertext=/////////////////////w==|Ok|0
ciphertext=AAAAAAAAAAAAAAAAAAAAAAAAAAAAAAAAAAAAAAAAAAA=|Ok|0
params=|Params|164
params=eyJpZGVudGlmaWVyIjoiYWxpY2UiLCJwd19jb3N0IjoxLCJwd19ub25jZSI6IjZlIiwidmVyc2lvbiI6IjAwMyJ9=|Params|164
params=eyJpZGVudGlmaWVyIjoiYWxpY2UiLCJwd19jb3N0IjoxLCJwd19ub25jZSI6IjZlIiwidmVyc2lvbiI6IjAwMyJ9 |Params|164
params=eyJpZGVudGlmaWVyIjoi/yIsInB3X2Nvc3QiOjEsInB3X25vbmNlIjoiNmUiLCJ2ZXJzaW9uIjoiMDAzIn0=|Params|164
params=é|Params|164
params=x;version=004|Version|0
hash=é;uuid=|Hash|4
iv=;hash=F|Hash|4
iv=é;uuid=0|Uuid|69
ciphertext=A;uuid=|Uuid|69
ciphertext=;iv=0|Iv|106
params=;ciphertext=A|Ciphertext|139
ciphertext=AAAAAAAAAAAAAAAAAAAAAAAAAAAAAAAAAAAAAAAAAAA=;params=|Params|184
ciphertext=*A^64*|Ok|0
ciphertext=*A^60*|Ciphertext|139
ciphertext=*A^4092*|Ciphertext|139
ciphertext=*A^4096*|Ok|0
ciphertext=*A^4096*AAAAAAAAAAAAAAAAAAAAAA==|Ok|0
ciphertext=*A^4096*AAAAAAAAAAAAAAAAAAAAAB==|Ciphertext|139
ciphertext=*A^4096*AAAA|Ciphertext|139
ciphertext=*A^4094*==AAAAAAAAAAAAAAAAAAAAAA==|Ciphertext|139
ciphertext=*A^4095*=AAAAAAAAAAAAAAAAAAAAAA==|Ciphertext|139
ciphertext=*A^8192*|Ok|0
ciphertext=*A^8192*AA==|Ciphertext|139
ciphertext=*A^8192*A|Ciphertext|139
"#;

/// Other parameters. Of members with one name the last counts; a part has at most 8,192 characters;
/// lists and objects nest 127 deep.
pub const PARAMETERS: &str = r#"
json={"identifier":"alice","pw_cost":1,"pw_nonce":"6e","version":"003"}|Ok|0
json= { "version" : "003", "pw_nonce":"6e" ,"pw_cost":1, "identifier":"alice" } |Ok|0
json={"identifier":"alice","pw_cost":1,"version":"003"}|Params|164
json={"pw_cost":1,"pw_nonce":"6e","version":"003"}|Params|164
json={"identifier":"alice","pw_nonce":"6e","version":"003"}|Params|164
json={"identifier":"alice","pw_cost":1,"pw_nonce":"6e"}|Params|164
json={"identifier":"alice","pw_cost":1,"pw_nonce":"6e","version":"004"}|Params|164
json={"identifier":"alice","pw_cost":1,"pw_nonce":"6e","version":3}|Params|164
json={"identifier":"alice","pw_cost":1,"pw_nonce":"6e","Version":"003"}|Params|164
json={"identifier":"alice","pw_cost":0,"pw_nonce":"6e","version":"003"}|Params|164
json={"identifier":"alice","pw_cost":-1,"pw_nonce":"6e","version":"003"}|Params|164
json={"identifier":"alice","pw_cost":4294967295,"pw_nonce":"6e","version":"003"}|Ok|0
json={"identifier":"alice","pw_cost":4294967296,"pw_nonce":"6e","version":"003"}|Params|164
json={"identifier":"alice","pw_cost":18446744073709551616,"pw_nonce":"6e","version":"003"}|Params|164
json={"identifier":"alice","pw_cost":1.0,"pw_nonce":"6e","version":"003"}|Params|164
json={"identifier":"alice","pw_cost":1e3,"pw_nonce":"6e","version":"003"}|Params|164
json={"identifier":"alice","pw_cost":01,"pw_nonce":"6e","version":"003"}|Params|164
json={"identifier":"alice","pw_cost":"1","pw_nonce":"6e","version":"003"}|Params|164
json={"identifier":"alice","pw_cost":null,"pw_nonce":"6e","version":"003"}|Params|164
json={"identifier":"","pw_cost":1,"pw_nonce":"6e","version":"003"}|Params|164
json={"identifier":7,"pw_cost":1,"pw_nonce":"6e","version":"003"}|Params|164
json={"identifier":"alice","pw_cost":1,"pw_nonce":"","version":"003"}|Params|164
json={"identifier":"alice","pw_cost":1,"pw_nonce":null,"version":"003"}|Params|164
json={"identifier":"\u00e9:\"","pw_cost":1,"pw_nonce":"6e","version":"003"}|Ok|0
json={"a":[1,{"b":null}],"identifier":"alice","pw_cost":1,"pw_nonce":"6e","version":"003"}|Ok|0
json={"a":1e400,"identifier":"alice","pw_cost":1,"pw_nonce":"6e","version":"003"}|Params|164
json={"a":"\ud800","identifier":"alice","pw_cost":1,"pw_nonce":"6e","version":"003"}|Params|164
json={"pw_cost":0,"identifier":"alice","pw_cost":1,"pw_nonce":"6e","version":"003"}|Ok|0
json={"pw_cost":1,"identifier":"alice","pw_cost":0,"pw_nonce":"6e","version":"003"}|Params|164
json={"identifier":"","identifier":"alice","pw_cost":1,"pw_nonce":"6e","version":"003"}|Ok|0
json={"version":"003","identifier":"alice","pw_cost":1,"pw_nonce":"6e","version":"004"}|Params|164
json=[{"identifier":"alice","pw_cost":1,"pw_nonce":"6e","version":"003"}]|Params|164
json={"params":{"identifier":"alice","pw_cost":1,"pw_nonce":"6e","version":"003"}}|Params|164
json={"identifier":"alice","pw_cost":1,"pw_nonce":"6e","version":"003"} x|Params|164
json={"identifier":"alice","pw_cost":1,"pw_nonce":"6e","version":"003"|Params|164
json={"identifier":"alice","pw_cost":1,"pw_nonce":"6e","version":"003",}|Params|164
json="003"|Params|164
json=null|Params|164
json= |Params|164
json={}|Params|164
json={"identifier":"*x^254*","pw_cost":1,"pw_nonce":"6e","version":"003"}|Ok|0
json={"identifier":"*x^255*","pw_cost":1,"pw_nonce":"6e","version":"003"}|Params|164
json={"identifier":"*é^127*","pw_cost":1,"pw_nonce":"6e","version":"003"}|Ok|0
json={"identifier":"*é^127*x","pw_cost":1,"pw_nonce":"6e","version":"003"}|Params|164
json={"identifier":"*\u00e9^127*","pw_cost":1,"pw_nonce":"6e","version":"003"}|Ok|0
json={"identifier":"alice","pw_cost":1,"pw_nonce":"*x^256*","version":"003"}|Ok|0
json={"identifier":"alice","pw_cost":1,"pw_nonce":"*x^257*","version":"003"}|Params|164
json={"identifier":"alice","pw_cost":1,"pw_nonce":"*é^128*","version":"003"}|Ok|0
json={"identifier":"alice","pw_cost":1,"pw_nonce":"*é^128*x","version":"003"}|Params|164
json={"identifier":"alice","pw_cost":1,* ^6078*"pw_nonce":"6e","version":"003"}|Ok|0
json={"identifier":"alice","pw_cost":1,* ^6079*"pw_nonce":"6e","version":"003"}|Params|164
json={"identifier":"alice","pw_cost":1,* ^6077*"pw_nonce":"6e","version":"003"}|Ok|0
json={"a":*[^1**]^1*,"identifier":"alice","pw_cost":1,"pw_nonce":"6e","version":"003"}|Ok|0
json={"a":*[^125**]^125*,"identifier":"alice","pw_cost":1,"pw_nonce":"6e","version":"003"}|Ok|0
json={"a":*[^126**]^126*,"identifier":"alice","pw_cost":1,"pw_nonce":"6e","version":"003"}|Ok|0
json={"a":*[^127**]^127*,"identifier":"alice","pw_cost":1,"pw_nonce":"6e","version":"003"}|Params|164
"#;
