//! Random scripts beside an ordered map.
ghost use Rattle.std.specs.Prelude.{◌<◌};

use script_runs::try_script;
use std::alloc::Global;
use std::collections::BTreeMap;
use std::test::Fail;

/// A script, and the transcript that an ordered map says it has.
#[derive(Drop)]
struct Expected {
    map: BTreeMap<u64, u64>,
    /// What the keys had that the transaction wrote, in the order of its writes.
    before: Vec<(u64, Option<u64>)>,
    script: String,
    printed: String,
    /// What draws keys and values: a linear congruential generator with the constants of MMIX (Knuth, 1997).
    state: u64,
}

impl Expected {
    fn draw(&mut self, below: u64) -> u64
        requires { 0 < below }
    {
        self.state = self
            .state
            .wrapping_mul(6364136223846793005)
            .wrapping_add(1442695040888963407);
        (self.state >> 33) % below
    }

    /// A get, a put or a del of a key among 400.
    fn ask(&mut self, alloc: Global, number: u64) -> Result<(), Fail> {
        let key = self.draw(400);
        let old = self.map.get(&key).copied();
        let kind = self.draw(4);
        let (word, value) = match kind {
            0 => ("get", format!(in alloc; "")?),
            1 => ("del", format!(in alloc; "")?),
            _ => ("put", format!(in alloc; " v{}", self.state)?),
        };
        let was = if kind == 0 { "" } else { " was" };
        let shown = match old {
            Some(value) => format!(in alloc; "= v{value}")?,
            None => format!(in alloc; "none")?,
        };
        self.script
            .push_str(&format!(in alloc; "{word} T{number} k{key:03}{value}\n")?)?;
        self.printed.push_str(&format!(in alloc; "T{number} {word} k{key:03}{was} {shown}\n")?)?;
        if kind != 0 {
            self.before.push((key, old))?;
        }
        if kind == 1 {
            self.map.remove(&key);
        }
        if kind > 1 {
            self.map.insert(key, self.state)?;
        }
        Ok(())
    }

    /// The transaction commits, as so many did with it.
    fn commit(&mut self, alloc: Global, number: u64, commits: u64) -> Result<(), Fail> {
        self.before.clear();
        self.script
            .push_str(&format!(in alloc; "commit T{number}\n")?)?;
        self.printed
            .push_str(&format!(in alloc; "T{number} commit {commits}\n")?)?;
        Ok(())
    }

    /// The transaction is taken back.
    fn abort(&mut self, alloc: Global, number: u64) -> Result<(), Fail> {
        for (key, old) in self.before.iter().rev() {
            match old {
                Some(value) => {
                    self.map.insert(*key, *value)?;
                }
                None => {
                    self.map.remove(key);
                }
            }
        }
        self.before.clear();
        self.script
            .push_str(&format!(in alloc; "abort T{number}\n")?)?;
        self.printed
            .push_str(&format!(in alloc; "T{number} abort\n")?)?;
        Ok(())
    }

    /// A transaction of eight requests; every third is taken back, and behind every fiftieth the machine stops.
    fn transaction(&mut self, alloc: Global, number: u64) -> Result<(), Fail> {
        self.script
            .push_str(&format!(in alloc; "begin T{number}\n")?)?;
        self.printed
            .push_str(&format!(in alloc; "T{number} begin\n")?)?;
        for _ in 0..8 {
            self.ask(alloc, number)?;
        }
        let commits = number - number / 3;
        if number % 3 == 0 {
            self.abort(alloc, number)?;
        } else {
            self.commit(alloc, number, commits)?;
        }
        if number % 50 == 0 {
            self.script.push_str("stop\nopen\n")?;
            self.printed.push_str(&format!(in alloc; "stop\nopen commits={commits} losers=0\n")?)?;
        }
        Ok(())
    }

    /// All pairs.
    fn scan(&mut self, alloc: Global) -> Result<(), Fail> {
        let pairs = self.map.len();
        self.script.push_str("begin S\nscan S % %\n")?;
        self.printed
            .push_str(&format!(in alloc; "S begin\nS scan % % pairs={pairs}\n")?)?;
        for (key, value) in self.map.iter() {
            self.printed
                .push_str(&format!(in alloc; "S row k{key:03} = v{value}\n")?)?;
        }
        Ok(())
    }
}

#[test]
fn two_hundred_transactions_are_those_of_an_ordered_map(rt: HostRuntime) -> Result<(), Fail> {
    let alloc = rt.alloc();
    let mut expected = Expected {
        map: BTreeMap::new(alloc),
        before: Vec::new(alloc),
        script: String::from_str(alloc, "format\nopen\n")?,
        printed: String::from_str(alloc, "format ok\nopen commits=0 losers=0\n")?,
        state: 1,
    };
    for number in 1..=200 {
        expected.transaction(alloc, number)?;
    }
    expected.scan(alloc)?;
    try_script(&rt, alloc, &expected.script, &expected.printed)
}
