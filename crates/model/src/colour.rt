// The two colours, and what a file costs between them, by the four cases of its maker and its reader.
ghost use Rattle.std.specs.Prelude.{◌≡◌, ◌≤◌, max, min};
ghost use Rattle.rules.specs.Model.{move_time_between, newly_held};
ghost use Rattle.model.specs.Colours.{as_colour, by_colour, own};

// The two kinds of processor, each with its memory.
#[derive(Clone, Copy, PartialEq, Eq)]
pub enum Colour {
    Blue,
    Red,
}

// A value for each colour.
#[derive(Clone, Copy, Drop)]
pub struct ByColour<T> {
    pub blue: T,
    pub red: T,
}

impl<T> ByColour<T> {
    // The colour's own.
    pub fn get(&self, colour: Colour) -> &T
        ensures { result.now ≡ own colour self.now }
    {
        match colour {
            Colour::Blue => &self.blue,
            Colour::Red => &self.red,
        }
    }
}

// What a file costs a reader, of its move time C or its size F, here `amount`, by the four cases of Order 2: 0 within a colour, whose memory
// holds it already, and all of it across. Of C it is document 001's actual move time, of F what the reader's colour must newly hold.
pub fn cost_between(maker: Colour, reader: Colour, amount: u64) -> u64
    ensures move_time { result ≡ move_time_between (as_colour maker) (as_colour reader) amount }
    ensures newly_held { result ≡ newly_held (as_colour maker) (as_colour reader) amount }
    ensures upper_bound { result ≤ amount }
{
    match (maker, reader) {
        (Colour::Blue, Colour::Blue) => 0,
        (Colour::Red, Colour::Red) => 0,
        (Colour::Blue, Colour::Red) => amount,
        (Colour::Red, Colour::Blue) => amount,
    }
}

// The colour's own of two numbers.
pub fn by_colour(colour: Colour, blue: u64, red: u64) -> u64
    ensures value { result ≡ by_colour colour blue red }
    ensures upper_bound { result ≤ max blue red }
    ensures lower_bound { min blue red ≤ result }
{
    *ByColour { blue, red }.get(colour)
}
