//! Lists of moves, as `written` has them, and the first place that isn't legal, worked out by hand from the
//! definitions; `-` where each move is legal. A place counts the moves from 0.

pub const LISTS: &str = r#"
|-
register alice|-
register alice;register bob|-
register alice;register alice|1
register alice;register bob;register alice|2
join A alice 1|0
register alice;join A bob 1|1
register alice;join A alice 1|-
register alice;join A alice 0|1
register alice;join A alice 2|1
register alice;join A alice 1;join B alice 1|-
register alice;join A alice 1;join A alice 1|2
register alice;register bob;join A alice 1;join A bob 1|3
register alice;register bob;join A alice 1;join B bob 1|-
edit A 1 Note - {}|0
register alice;edit A 1 Note - {}|1
register alice;join A alice 1;edit A 1 Note - {}|-
register alice;join A alice 1;edit B 1 Note - {}|2
register alice;join A alice 1;edit A 1 Note - []|2
register alice;join A alice 1;edit A 1 Note - |2
register alice;join A alice 1;edit A 1 Note - {"n":1e999}|2
register alice;join A alice 1;edit A 1 Note - *700000|-
register alice;join A alice 1;edit A 1 Note - *700001|2
register alice;join A alice 1;edit A 1 Note 5 {}|2
register alice;join A alice 1;edit A 1 Note - {};edit A 1 Note - {"n":1}|-
register alice;join A alice 1;edit A 1 Note - {};edit A 2 Note - {"n":1}|-
register alice;join A alice 1;edit A 1 Note - {};edit A 1 Task - {}|3
register alice;join A alice 1;edit A 1 Note - {};edit A 1 Note 7 {}|3
register alice;join A alice 1;edit A 1 Note - {};edit A 1 Note - []|3
register alice;join A alice 1;edit A 1 Note - deleted|2
register alice;join A alice 1;edit A 1 Note - {};edit A 1 Note - deleted|3
register alice;join A alice 1;post A 1|2
register alice;join A alice 1;edit A 1 Note - {};post A 1|-
register alice;join A alice 1;edit A 1 Note - {};post A 2|3
register alice;join A alice 1;join B alice 1;edit A 1 Note - {};post B 1|4
register alice;join A alice 1;edit A 1 Note - {};post A 1;post A 1|4
register alice;join A alice 1;edit A 1 Note - {};post A 1;edit A 1 Note - deleted|-
register alice;join A alice 1;edit A 1 Note - {};post A 1;edit A 1 Note - deleted;edit A 1 Note - deleted|-
register alice;join A alice 1;edit A 1 Note - {};post A 1;edit A 1 Note - deleted;edit A 1 Note - {}|5
register alice;join A alice 1;edit A 1 Note - {};accept A 1 1000 1|3
register alice;join A alice 1;accept A 1 1000 1|2
register alice;join A alice 1;edit A 1 Note - {};post A 1;accept A 1 1000 1|-
register alice;join A alice 1;edit A 1 Note - {};post A 1;accept B 1 1000 1|4
register alice;join A alice 1;edit A 1 Note - {};post A 1;accept A 1 1000 2|4
register alice;join A alice 1;edit A 1 Note - {};post A 1;accept A 1 1000 -|4
register alice;join A alice 1;edit A 1 Note - {};post A 1;accept A 1 253402300799999999 1|-
register alice;join A alice 1;edit A 1 Note - {};post A 1;accept A 1 253402300800000000 1|4
register alice;join A alice 1;edit A 1 Note - {};post A 1;accept A 1 1000 1;accept A 1 1001 1|5
register alice;join A alice 1;edit A 1 Note - {};post A 1;edit A 1 Note - {"n":2};accept A 1 1000 1;accept A 1 1001 1|6
register alice;join A alice 1;edit A 1 Note - {};edit A 2 Note - {};post A 1;post A 2;accept A 2 1000 1;accept A 1 1001 1|-
register alice;join A alice 1;edit A 1 Note - {};edit A 2 Note - {};post A 1;post A 2;accept A 1 1000 1;accept A 2 1000 1|7
register alice;join A alice 1;edit A 1 Note - {};edit A 2 Note - {};post A 1;post A 2;accept A 1 1000 1;accept A 2 999 1|7
register alice;join A alice 1;settle A 1|2
register alice;join A alice 1;edit A 1 Note - {};settle A 1|3
register alice;join A alice 1;edit A 1 Note - {};post A 1;settle A 1|4
register alice;join A alice 1;edit A 1 Note - {};post A 1;accept A 1 1000 1;settle A 1|-
register alice;join A alice 1;edit A 1 Note - {};post A 1;accept A 1 1000 1;settle A 1;settle A 1|6
register alice;join A alice 1;edit A 1 Note - {};post A 1;accept A 1 1000 1;edit A 1 Note - {"n":2};settle A 1|6
register alice;join A alice 1;edit A 1 Note - {};post A 1;edit A 1 Note - {"n":2};accept A 1 1000 1;settle A 1|6
register alice;join A alice 1;edit A 1 Note - {};post A 1;edit A 1 Note - {"n":2};accept A 1 1000 1;edit A 1 Note - {};settle A 1|-
register alice;join A alice 1;edit A 1 Note - {};post A 1;accept A 1 1000 1;settle A 1;edit A 1 Note 1000 {"n":2};post A 1;accept A 1 1001 1;settle A 1|-
register alice;join A alice 1;edit A 1 Note - {};post A 1;accept A 1 1000 1;settle A 1;edit A 1 Note 1000 {"n":2};post A 1;accept A 1 1000 1|8
register alice;join A alice 1;edit A 1 Note - {};post A 1;accept A 1 1000 1;settle A 1;edit A 1 Note 999 {"n":2}|6
register alice;join A alice 1;edit A 1 Note - {};post A 1;accept A 1 1000 1;settle A 1;edit A 2 Note 1000 {"n":2}|6
register alice;join A alice 1;edit A 1 Note - {};post A 1;accept A 1 1000 1;settle A 1;edit A 1 Task 1000 {"n":2}|6
register alice;join A alice 1;edit A 1 Note - {};post A 1;accept A 1 1000 1;settle A 1;edit A 1 Note - {};post A 1;accept A 1 1001 1|8
register alice;join A alice 1;edit A 1 Note - {};post A 1;accept A 1 1000 1;settle A 1;edit A 1 Note - deleted|6
register alice;join A alice 1;edit A 1 Note - {};post A 1;accept A 1 1000 1;settle A 1;edit A 1 Note 1000 deleted;post A 1;accept A 1 1001 -;settle A 1|-
register alice;join A alice 1;edit A 1 Note - {};post A 1;accept A 1 1000 1;settle A 1;edit A 1 Note 1000 deleted;post A 1;accept A 1 1001 1|8
register alice;join A alice 1;edit A 1 Note - {};post A 1;accept A 1 1000 1;settle A 1;edit A 1 Note 1000 deleted;settle A 1|7
register alice;join A alice 1;edit A 1 Note - {};post A 1;accept A 1 1000 1;settle A 1;edit A 1 Note 1000 deleted;post A 1;accept A 1 1001 -;settle A 1;edit A 1 Note 1001 {}|10
register alice;join A alice 1;edit A 1 Note - {};post A 1;accept A 1 1000 1;settle A 1;edit A 1 Note 1000 deleted;post A 1;accept A 1 1001 -;settle A 1;edit A 1 Note 1000 {};post A 1|-
register alice;join A alice 1;edit A 1 Note - {};post A 1;accept A 1 1000 1;settle A 1;edit A 1 Note 1000 deleted;post A 1;accept A 1 1001 -;settle A 1;edit A 1 Note 1000 {};post A 1;accept A 1 1002 1|12
register alice;join A alice 1;join B alice 1;edit A 1 Note - {};post A 1;accept A 1 1000 1;settle A 1;edit B 1 Note 1000 {"n":3};post B 1;accept B 1 1001 1;settle B 1|-
register alice;join A alice 1;join B alice 1;edit A 1 Note - {};post A 1;accept A 1 1000 1;settle A 1;edit B 1 Note 1000 {"n":3};post B 1;edit A 1 Note 1000 {"n":2};post A 1;accept A 1 1001 1;settle A 1;accept B 1 1002 1|13
register alice;register bob;join A alice 1;join B bob 1;edit A 1 Note - {};post A 1;accept A 1 1000 1;edit B 1 Note 1000 {}|7
register alice;register bob;join A alice 1;join B bob 1;edit A 1 Note - {};post A 1;accept A 1 1000 1;edit B 1 Note - {};post B 1;accept B 1 1001 1|9
register alice;register bob;join A alice 1;join B bob 1;edit A 1 Note - {};post A 1;accept A 1 1000 1;edit B 2 Note - {};post B 2;accept B 2 1000 1|9
register alice;register bob;join A alice 1;join B bob 1;edit A 1 Note - {};post A 1;accept A 1 1000 1;edit B 2 Note - {};post B 2;accept B 2 1001 1|-
register alice;drop A 1|1
register alice;join A alice 1;drop A 1|2
register alice;join A alice 1;edit A 1 Note - {};drop A 1|-
register alice;join A alice 1;edit A 1 Note - {};drop A 1;post A 1|4
register alice;join A alice 1;edit A 1 Note - {};post A 1;drop A 1|4
register alice;join A alice 1;edit A 1 Note - {};post A 1;edit A 1 Note - deleted;drop A 1|5
register alice;join A alice 1;edit A 1 Note - {};post A 1;accept A 1 1000 1;edit A 1 Note - deleted;drop A 1|6
register alice;join A alice 1;edit A 1 Note - {};post A 1;accept A 1 1000 1;settle A 1;edit A 1 Note 1000 {"n":2};drop A 1|7
register alice;register bob;join A alice 1;join B bob 1;edit B 1 Note - {};post B 1;edit A 1 Note - {};post A 1;accept A 1 1000 1;drop B 1|9
register alice;register bob;join A alice 1;join B bob 1;edit B 1 Note - {};post B 1;edit A 1 Note - {};post A 1;accept A 1 1000 1;edit B 1 Note - deleted;drop B 1|-
register alice;unpost A 1|1
register alice;join A alice 1;unpost A 1|2
register alice;join A alice 1;edit A 1 Note - {};change alice 6f 2;unpost A 1|4
register alice;join A alice 1;edit A 1 Note - {};post A 1;unpost A 1|4
register alice;change alice 6f 3|1
register alice;change alice 6f 1|1
register alice;change alice 6f 2;change alice 70 2|2
register alice;join A alice 1;edit A 1 Note - {};post A 1;change alice 6f 2;unpost A 1;unpost A 1|6
register alice;join A alice 1;edit A 1 Note - {};post A 1;change alice 6f 2;accept A 1 1000 1|5
register alice;join A alice 1;edit A 1 Note - {};post A 1;change alice 6f 2;join A alice 2;post A 1|6
register alice;join A alice 1;edit A 1 Note - {};post A 1;change alice 6f 2;join A alice 2;unpost A 1;accept A 1 1000 2|7
register alice;join A alice 1;edit A 1 Note - {};post A 1;change alice 6f 2;join A alice 2;unpost A 1;post A 1;accept A 1 1000 1|8
register alice;join A alice 1;edit A 1 Note - {};post A 1;change alice 6f 2;join A alice 2;unpost A 1;post A 1;accept A 1 1000 2|-
register alice;join A alice 1;edit A 1 Note - {};post A 1;accept A 1 1000 1;change alice 6f 2;unpost A 1|6
register alice;join A alice 1;edit A 1 Note - {};post A 1;accept A 1 1000 1;settle A 1;edit A 1 Note 1000 {"n":2};post A 1;change alice 6f 2;unpost A 1|-
register alice;join A alice 1;join B alice 1;edit A 1 Note - {};post A 1;accept A 1 1000 1;settle A 1;edit B 1 Note 1000 {"n":3};post B 1;edit A 1 Note 1000 {"n":2};post A 1;accept A 1 1001 1;change alice 6f 2;unpost B 1|13
register alice;join A alice 1;edit A 1 Note - {};post A 1;accept A 1 1000 1;rewrap 1 1001 1|5
register alice;join A alice 1;edit A 1 Note - {};post A 1;accept A 1 1000 1;change alice 6f 2;rewrap 1 1001 2|-
register alice;join A alice 1;edit A 1 Note - {};post A 1;accept A 1 1000 1;change alice 6f 2;rewrap 1 1001 1|6
register alice;join A alice 1;edit A 1 Note - {};post A 1;accept A 1 1000 1;change alice 6f 2;rewrap 1 1000 2|6
register alice;join A alice 1;edit A 1 Note - {};post A 1;accept A 1 1000 1;change alice 6f 2;rewrap 1 253402300800000000 2|6
register alice;join A alice 1;edit A 1 Note - {};post A 1;accept A 1 1000 1;change alice 6f 2;rewrap 2 1001 2|6
register alice;join A alice 1;edit A 1 Note - {};post A 1;accept A 1 1000 1;change alice 6f 2;rewrap 1 1001 2;rewrap 1 1002 2|7
register alice;join A alice 1;edit A 1 Note - {};post A 1;accept A 1 1000 1;change alice 6f 2;rewrap 1 1001 2;settle A 1|-
register alice;join A alice 1;edit A 1 Note - {};post A 1;accept A 1 1000 1;settle A 1;edit A 1 Note 1000 deleted;post A 1;accept A 1 1001 -;change alice 6f 2;rewrap 1 1002 2|10
register alice;register bob;join A alice 1;join B bob 1;edit A 1 Note - {};post A 1;accept A 1 1000 1;edit B 2 Note - {};post B 2;accept B 2 2000 1;change alice 6f 2;rewrap 1 1500 2|11
register alice;settle-posted A 1 1000|1
register alice;join A alice 1;edit A 1 Note - {};post A 1;settle-posted A 1 1000|4
register alice;join A alice 1;edit A 1 Note - {};post A 1;edit A 1 Note - {"n":2};accept A 1 1000 1;settle-posted A 1 999|6
register alice;join A alice 1;edit A 1 Note - {};post A 1;edit A 1 Note - {"n":2};accept A 1 1000 1;settle-posted A 1 1000;settle-posted A 1 1000|7
register alice;join A alice 1;edit A 1 Note - {};post A 1;edit A 1 Note - {"n":2};accept A 1 1000 1;settle-posted A 1 1000;post A 1;accept A 1 1001 1;settle A 1|-
register alice;join A alice 1;edit A 1 Note - {};post A 1;accept A 1 1000 1;settle A 1;edit A 1 Note 1000 {};settle-posted A 1 1000|7
register alice;join A alice 1;join B alice 1;edit A 1 Note - {};post A 1;edit B 1 Note - {"n":3};post B 1;accept A 1 1000 1;settle-posted B 1 1000|8
register alice;join A alice 1;join B alice 1;edit A 1 Note - {};post A 1;edit B 1 Task - {};post B 1;accept A 1 1000 1;settle-posted B 1 1000|8
register alice;join A alice 1;join B alice 1;edit A 1 Note - {};post A 1;edit B 1 Note - {};post B 1;accept A 1 1000 1;settle-posted B 1 1000|-
register alice;join A alice 1;edit A 1 Note - {};post A 1;accept A 1 1000 1;settle A 1;edit A 1 Note 1000 {};post A 1;change alice 6f 2;unpost A 1;settle-posted A 1 1000|-
register alice;fork A 1 2|1
register alice;join A alice 1;edit A 1 Note - {};fork A 1 2|3
register alice;join A alice 1;edit A 1 Note - {};post A 1;accept A 1 1000 1;settle A 1;edit A 1 Note 1000 {"n":2};fork A 1 2|7
register alice;join A alice 1;edit A 1 Note - {};post A 1;edit A 1 Note - {"n":2};accept A 1 1000 1;fork A 1 2|6
register alice;join A alice 1;join B alice 1;edit A 1 Note - {};post A 1;accept A 1 1000 1;fork B 1 2|6
register alice;join A alice 1;join B alice 1;edit A 1 Note - {};post A 1;accept A 1 1000 1;edit B 1 Note - {};fork B 1 2|7
register alice;join A alice 1;join B alice 1;edit A 1 Note - {};post A 1;accept A 1 1000 1;edit B 1 Note - {"n":3};fork B 1 1|7
register alice;join A alice 1;join B alice 1;edit A 1 Note - {};post A 1;accept A 1 1000 1;edit B 1 Note - {"n":3};edit B 2 Note - {};fork B 1 2|8
register alice;join A alice 1;join B alice 1;edit A 1 Note - {};post A 1;accept A 1 1000 1;edit B 1 Note - {"n":3};edit A 2 Note - {};fork B 1 2;post B 1|9
register alice;join A alice 1;join B alice 1;edit A 1 Note - {};post A 1;accept A 1 1000 1;edit B 1 Note - {"n":3};fork B 1 2;post B 2;accept B 2 1001 1;settle B 2|-
register alice;join A alice 1;join B alice 1;edit A 1 Note - {};post A 1;accept A 1 1000 1;edit B 1 Task - {};fork B 1 2|-
register alice;join A alice 1;join B alice 1;edit A 1 Note - {};post A 1;accept A 1 1000 1;settle A 1;edit B 1 Note 1000 deleted;edit A 1 Note 1000 {"n":2};post A 1;accept A 1 1001 1;fork B 1 2|11
register alice;join A alice 1;join B alice 1;edit A 1 Note - {};post A 1;accept A 1 1000 1;settle A 1;edit B 1 Note 1000 {"n":3};edit A 1 Note 1000 deleted;post A 1;accept A 1 1001 -;fork B 1 2|-
register alice;join A alice 1;join B alice 1;edit A 1 Note - {};post A 1;accept A 1 1000 1;change alice 6f 2;rewrap 1 1001 2;edit B 1 Note - {};fork B 1 2|-
register alice;join A alice 1;join B alice 1;edit A 1 Note - {};post A 1;accept A 1 1000 1;change alice 6f 2;rewrap 1 1001 2;join B alice 2;edit B 1 Note - {};fork B 1 2|10
register alice;rename A 1 2|1
register alice;join A alice 1;edit A 1 Note - {};rename A 1 2|3
register alice;join A alice 1;edit A 1 Note - {};post A 1;accept A 1 1000 1;rename A 1 2|5
register alice;register bob;join A alice 1;join B bob 1;edit A 1 Note - {};post A 1;accept A 1 1000 1;rename B 1 2|7
register alice;register bob;join A alice 1;join B bob 1;edit A 1 Note - {};post A 1;accept A 1 1000 1;edit B 1 Note - {"n":3};rename B 1 1|8
register alice;register bob;join A alice 1;join B bob 1;edit A 1 Note - {};post A 1;accept A 1 1000 1;edit B 1 Note - {"n":3};edit B 2 Note - {};rename B 1 2|9
register alice;register bob;join A alice 1;join B bob 1;edit A 1 Note - {};post A 1;accept A 1 1000 1;edit B 1 Note - {"n":3};post B 1;rename B 1 2;accept B 2 1001 1|10
register alice;register bob;join A alice 1;join B bob 1;edit A 1 Note - {};post A 1;accept A 1 1000 1;edit B 1 Note - {"n":3};post B 1;rename B 1 2;post B 2;accept B 2 1001 1;settle B 2|-
register alice;give-way A 1|1
register alice;join A alice 1;edit A 1 Note - {};post A 1;edit A 1 Note - deleted;give-way A 1|5
register alice;join A alice 1;edit A 1 Note - {};post A 1;accept A 1 1000 1;settle A 1;edit A 1 Note 1000 deleted;give-way A 1|7
register alice;join A alice 1;edit A 1 Note - {};post A 1;edit A 1 Note - deleted;accept A 1 1000 1;give-way A 1|6
register alice;join A alice 1;edit A 1 Note - {};post A 1;edit A 1 Note - deleted;accept A 1 1000 1;change alice 6f 2;rewrap 1 1001 2;give-way A 1|-
register alice;join A alice 1;edit A 1 Note - {};post A 1;edit A 1 Note - deleted;accept A 1 1000 1;change alice 6f 2;rewrap 1 1001 2;join A alice 2;give-way A 1|9
register alice;join A alice 1;join B alice 1;edit A 1 Note - {};post A 1;accept A 1 1000 1;settle A 1;edit B 1 Note 1000 deleted;edit A 1 Note 1000 {"n":2};post A 1;accept A 1 1001 1;give-way B 1;edit B 1 Note 1001 {"n":3}|-
register alice;join A alice 1;join B alice 1;edit A 1 Note - {};post A 1;accept A 1 1000 1;settle A 1;edit B 1 Note 1000 {"n":3};edit A 1 Note 1000 {"n":2};post A 1;accept A 1 1001 1;give-way B 1|11
register alice;join A alice 1;join B alice 1;edit A 1 Note - {};post A 1;accept A 1 1000 1;settle A 1;edit B 1 Note 1000 deleted;edit A 1 Note 1000 deleted;post A 1;accept A 1 1001 -;give-way B 1|11
change alice 6f 2|0
register alice;change bob 6f 2|1
register alice;change alice 6e 2|1
register alice;change alice 6f 2;change alice 6f 3|2
register alice;change alice 6f 2;change alice 6e 3|2
register alice;change alice 6f 2;change alice 70 3|-
register alice;register bob;change alice 6f 2;change bob 6f 2|-
register alice;join A alice 1;edit A 1 Note - {};post A 1;accept A 1 1000 1;change alice 6f 2;change alice 70 3|6
register alice;join A alice 1;edit A 1 Note - {};post A 1;accept A 1 1000 1;change alice 6f 2;rewrap 1 1001 2;change alice 70 3|-
register alice;join A alice 1;edit A 1 Note - {};post A 1;accept A 1 1000 1;settle A 1;edit A 1 Note 1000 deleted;post A 1;accept A 1 1001 -;change alice 6f 2;change alice 70 3|-
register alice;change alice 6f 2;retire A 1|2
register alice;join A alice 1;retire A 1|2
register alice;change alice 6f 2;join A alice 2;retire A 1|3
register alice;join A alice 1;change alice 6f 2;join A alice 2;retire A 2|4
register alice;join A alice 1;change alice 6f 2;join A alice 2;retire A 1|-
register alice;join A alice 1;change alice 6f 2;join A alice 2;retire A 1;retire A 1|5
register alice;join A alice 1;change alice 6f 2;join A alice 2;change alice 70 3;join A alice 3|5
register alice;join A alice 1;change alice 6f 2;join A alice 2;retire A 1;change alice 70 3;join A alice 3|-
register alice;join A alice 1;edit A 1 Note - {};post A 1;accept A 1 1000 1;change alice 6f 2;join A alice 2;retire A 1|7
register alice;join A alice 1;edit A 1 Note - {};post A 1;accept A 1 1000 1;change alice 6f 2;join A alice 2;rewrap 1 1001 2;retire A 1|-
register alice;register bob;join A alice 1;join B bob 1;edit B 1 Note - {};post B 1;accept B 1 1000 1;change alice 6f 2;join A alice 2;retire A 1|-
register alice;join A alice 1;change alice 6f 2;join A alice 2;edit A 1 Note - {};post A 1;accept A 1 1000 2|-
register alice;join A alice 1;change alice 6f 2;join A alice 2;edit A 1 Note - {};post A 1;accept A 1 1000 1|6
"#;
