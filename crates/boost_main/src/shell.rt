// What a person at a terminal is shown.

/// How clients that share an input and an output are spoken with.
#[derive(Clone, Copy, PartialEq, Eq)]
pub enum Manner {
    /// As programs are: each line and each answer begins with its client.
    Tagged,
    /// As a person at a terminal is: what names no client is client 1's, `help` is known, and a
    /// prompt is shown where a line is awaited.
    Shell,
}

/// Stands before a line of a person.
pub const PROMPT: &[u8] = b"> ";

/// The first line of a shell.
pub const WELCOME: &[u8] = b"boost 1. `help` lists what you may ask, `end` ends.\n";

/// What a person may ask.
pub const HELP: &[u8] = b"\
make KIND NAME       makes a collection: a set, map, queue, counter, pool, stock or quotas
do NAME CALL; ..     a transaction of these calls: all of them, or none
keep NAME CALL; ..   the same, and waits until it is on the disk
within 30 do ..      waits up to 30 seconds while a call is Busy or finds nothing;
                     and so does `within 30 keep ..`
begin                begins a transaction of many lines:
  call NAME CALL       makes a call in it
  later NAME CALL      puts a `bump` or a `fill` off to its commit
  commit               ends it: it is in effect
  keep                 the same, and waits until it is on the disk
  do .., keep ..       makes these calls and ends it; or takes all of it back
  abort                takes it back
wait                 waits until what was last committed or made is on the disk
kept                 asks whether it is
status               tells how the store stands
bye                  takes back what is open, and begins anew
c2 ..                says a line as another client, c1 to c64
end                  ends, once all that was committed is on the disk
Calls of a set       contains X, add X, remove X, pick
      of a map       get K, put K HEX, remove K, ceiling K
      of a queue     add PRIORITY TAG, take, least
      of a counter   bump N, read
      of a pool      draw, release X
      of a stock     spend N, level; and later: fill N
      of quotas      spend K N, level K, fill K N
";
