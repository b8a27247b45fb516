// Prints what `elements::element` answers for every ID from 0 to 260 at homes 0 to 3 and 65,535: a line `ID HOME answer`.
#![tactic(auto)]

use elements::Home;

fn show(id: u32, home: u32) {
    io::print_decimal(1, u64::from(id));
    io::write_all(1, b" ");
    io::print_decimal(1, u64::from(home));
    let answer: &[u8] = match elements::element(id, home) {
        Home::Here => b" here\n",
        Home::Elsewhere => b" elsewhere\n",
        Home::Unknown => b" unknown\n",
    };
    io::write_all(1, answer);
}

fn main() {
    for id in 0..=260 {
        for home in [0, 1, 2, 3, 65535] {
            show(id, home);
        }
    }
}
