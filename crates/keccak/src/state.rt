// The state: lane (x, y) stands at x + 5 y.
ghost use Rattle.std.specs.Prelude.{◌≡◌, ◌<◌};
ghost use Rattle.keccak.specs.Rows.{row_of, rows_of, from_rows};

use crate::row::Row;

#[derive(Clone, Copy)]
pub struct State {
    pub lanes: [u64; 25],
}

// The rows y = 0, 1, 2, 3, 4.
#[derive(Clone, Copy)]
pub struct Rows {
    pub y0: Row,
    pub y1: Row,
    pub y2: Row,
    pub y3: Row,
    pub y4: Row,
}

impl State {
    // The state with the rows p, q, r, s, t, in order of y.
    pub fn from_rows(p: Row, q: Row, r: Row, s: Row, t: Row) -> State
        ensures { result.lanes ≡ from_rows p q r s t }
    {
        State {
            lanes: [
                p.a, p.b, p.c, p.d, p.e, q.a, q.b, q.c, q.d, q.e, r.a, r.b, r.c, r.d, r.e, s.a,
                s.b, s.c, s.d, s.e, t.a, t.b, t.c, t.d, t.e,
            ],
        }
    }

    // The row whose first lane stands at i.
    pub fn row_at(self, i: usize) -> Row
        requires { i < 21 }
        ensures { result ≡ row_of self.lanes i }
    {
        Row {
            a: self.lanes[i],
            b: self.lanes[i + 1],
            c: self.lanes[i + 2],
            d: self.lanes[i + 3],
            e: self.lanes[i + 4],
        }
    }

    pub(crate) fn rows(self) -> Rows
        ensures { result ≡ rows_of self.lanes }
    {
        Rows {
            y0: self.row_at(0),
            y1: self.row_at(5),
            y2: self.row_at(10),
            y3: self.row_at(15),
            y4: self.row_at(20),
        }
    }
}
