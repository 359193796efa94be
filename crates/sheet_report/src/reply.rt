// What a solver said of the dash's formula for five slots: CaDiCaL sc2021, run as `cadical -q` on the clauses that this report prints.
pub const ANSWER: &str =
    "s SATISFIABLE\nv -1 -2 -3 4 -5 -6 7 8 9 10 -11 12 -13 -14 -15 -16 -17 18 -19 20 21 -22 -23\nv -24 25 -26 -27 28 -29 -30 -31 -32 -33 -34 35 36 37 38 -39 -40 -41 -42 -43\nv -44 45 -46 47 -48 -49 -50 -51 52 53 54 -55 56 -57 -58 -59 -60 -61 -62 -63\nv -64 65 -66 67 -68 69 -70 71 -72 73 74 -75 76 -77 -78 -79 -80 -81 -82 83 -84\nv 85 -86 -87 -88 -89 90 91 92 93 94 0\n";
