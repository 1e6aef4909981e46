//! Lists of moves, as `written` has them, and how many items, versions, forks and drafts they come to, worked
//! out by hand from the definitions.

pub const REPORTS: &str = r#"
|0 0 0 0
register alice;join A alice 1|0 0 0 0
register alice;join A alice 1;edit A 1 Note - {}|0 0 0 1
register alice;join A alice 1;edit A 1 Note - {};edit A 1 Note - {"n":2}|0 0 0 1
register alice;join A alice 1;join B alice 1;edit A 1 Note - {};edit B 1 Note - {};edit A 2 Note - {}|0 0 0 3
register alice;join A alice 1;edit A 1 Note - {};drop A 1|0 0 0 0
register alice;join A alice 1;edit A 1 Note - {};post A 1;accept A 1 1000 1|1 1 0 1
register alice;join A alice 1;edit A 1 Note - {};post A 1;accept A 1 1000 1;settle A 1|1 1 0 0
register alice;join A alice 1;edit A 1 Note - {};post A 1;edit A 1 Note - {"n":2};accept A 1 1000 1;settle-posted A 1 1000|1 1 0 1
register alice;join A alice 1;edit A 1 Note - {};post A 1;accept A 1 1000 1;settle A 1;edit A 1 Note 1000 {"n":2};post A 1;accept A 1 2000 1;settle A 1|1 2 0 0
register alice;join A alice 1;edit A 1 Note - {};post A 1;accept A 1 1000 1;settle A 1;edit A 1 Note 1000 deleted;post A 1;accept A 1 2000 -|0 2 0 1
register alice;join A alice 1;edit A 1 Note - {};post A 1;accept A 1 1000 1;settle A 1;edit A 2 Note - {};post A 2;accept A 2 2000 1;settle A 2;edit A 1 Note 1000 deleted;post A 1;accept A 1 3000 -;settle A 1|1 3 0 0
register alice;join A alice 1;join B alice 1;edit A 1 Note - {};post A 1;edit B 1 Note - {"n":2};post B 1;edit B 1 Note - {"n":3};accept A 1 1000 1;fork B 1 2|1 1 1 2
register alice;join A alice 1;join B alice 1;edit A 1 Note - {};post A 1;accept A 1 1000 1;settle A 1;edit B 1 Note 1000 deleted;edit A 1 Note 1000 {"n":2};post A 1;accept A 1 2000 1;settle A 1;give-way B 1|1 2 0 0
register alice;join A alice 1;edit A 1 Note - {};post A 1;accept A 1 1000 1;settle A 1;change alice 6f 2;rewrap 1 2000 2|1 2 0 0
register alice;register bob;join A alice 1;join B bob 1;edit A 1 Note - {};post A 1;accept A 1 1000 1;settle A 1;edit B 1 Note - {};rename B 1 2|1 1 0 1
register alice;register bob;join A alice 1;join B bob 1;edit A 1 Note - {};post A 1;accept A 1 1000 1;settle A 1;edit B 2 Note - {};post B 2;accept B 2 2000 1;settle B 2|2 2 0 0
"#;
