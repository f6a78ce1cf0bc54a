// What a writing is lent, with room for 3 inputs, 4 outputs and 4 items, and the bytes that it should write.
use crate::show::Given;
use decoders::{Answer, Head};
use trial::Tables;

// How many numbers of each table, bytes of the source and bytes of the output are lent: numbers, since a case may change them before what
// they cut.
#[derive(Clone, Copy)]
struct Lent {
    inputs: usize,
    outputs: usize,
    items: usize,
    source: usize,
    room: usize,
}

#[derive(Clone, Copy)]
pub(crate) struct Load {
    head: Head,
    tables: Tables<60, 56, 8>,
    // 907 bytes, the longest load's, in both: cases change `wanted`, and the source is made and cut in the same way
    source: [u8; 907],
    wanted: [u8; 907],
    lent: Lent,
}

// The bytes, and then 0.
fn spread(s: &[u8]) -> [u8; 907] {
    let mut t = [0u8; 907];
    for (to, from) in t.iter_mut().zip(s) {
        *to = *from;
    }
    t
}

// Head numbers of a finished reading.
pub(crate) fn finished(a: Answer) -> Head {
    let Answer::Finished(head) = a else {
        return Head {
            version: 0,
            flag: 0,
            inputs: 0,
            outputs: 0,
            items: 0,
            locktime: 0,
            bytes: 0,
        };
    };
    head
}

// So many of them, all if there are less.
fn first<T>(t: &[T], n: usize) -> &[T] {
    &t[..n.min(t.len())]
}

// One number, where the table has it.
fn set<T: Copy>(t: &mut [T], at: usize, v: T) {
    if let Some(cell) = t.get_mut(at) {
        *cell = v;
    }
}

// Junk from one number on.
fn junk(t: &mut [u32], from: usize) {
    if let Some(behind) = t.get_mut(from..) {
        behind.fill(4294967295);
    }
}

impl Load {
    // Bytes that should be written from `to` on; they stand in the source from `from` on.
    fn move_bytes(&mut self, to: usize, from: usize, n: usize) {
        if 907 < to || 907 < from {
            return;
        }
        let source = self.source;
        let bytes = first(&source[from..], n);
        for (to, from) in self.wanted[to..].iter_mut().zip(bytes) {
            *to = *from;
        }
    }

    // How many numbers of the tables are lent. Here, in `count` and in `junk`: one number for each of three fields; an array would be taken
    // apart again.
    fn lend(&mut self, inputs: usize, outputs: usize, items: usize) {
        self.lent.inputs = inputs;
        self.lent.outputs = outputs;
        self.lent.items = items;
    }

    fn count(&mut self, inputs: u32, outputs: u32, items: u32) {
        self.head.inputs = inputs;
        self.head.outputs = outputs;
        self.head.items = items;
    }

    fn junk(&mut self, inputs: usize, outputs: usize, items: usize) {
        junk(&mut self.tables.inputs, inputs);
        junk(&mut self.tables.outputs, outputs);
        junk(&mut self.tables.items, items);
    }

    // A change by its letter, as `cases` lists them, and its numbers, 0 where it has fewer. Each letter stands here alone: an enum of them with
    // a TryFrom would list all 17 twice.
    pub(crate) fn change(&mut self, letter: u8, numbers: [u32; 3]) {
        let [p, q, r] = numbers;
        let a = p as usize;
        let b = q as usize;
        let c = r as usize;
        match letter {
            b'E' => *self = empty(),
            b'F' => *self = full(),
            b'B' => *self = bodies(),
            b'S' => *self = small(),
            b'P' => *self = plain(),
            b'i' => set(&mut self.tables.inputs, 20 * a + b, r),
            b'o' => set(&mut self.tables.outputs, 14 * a + b, r),
            b't' => set(&mut self.tables.items, 2 * a + b, r),
            b'f' => self.head.flag = p,
            b'h' => self.head.bytes = p,
            b'c' => self.count(p, q, r),
            b'j' => self.junk(a, b, c),
            b'n' => self.lend(a, b, c),
            b's' => self.lent.source = a,
            b'r' => self.lent.room = a,
            b'w' => set(&mut self.wanted, a, (q % 256) as u8),
            b'm' => self.move_bytes(a, b, c),
            _ => {}
        }
    }

    // The case's line behind its name.
    pub(crate) fn show(&self) {
        let lent = self.lent;
        let given = Given {
            head: self.head,
            inputs: first(&self.tables.inputs, lent.inputs),
            outputs: first(&self.tables.outputs, lent.outputs),
            items: first(&self.tables.items, lent.items),
            source: first(&self.source, lent.source),
        };
        let mut out = [0u8; 1000];
        let n = lent.room.min(out.len());
        given.line(&self.wanted, &mut out[..n]);
    }
}

// A transaction that is read, to be written back over its own bytes in exact room. What the reader says of it is tried by `decoders_main`.
fn read(s: &[u8]) -> Load {
    let mut tables = Tables::<60, 56, 8>::marked();
    let r = tables.read(s);
    let bytes = spread(s);
    Load {
        head: finished(r.answer),
        tables,
        source: bytes,
        wanted: bytes,
        lent: Lent {
            inputs: 60,
            outputs: 56,
            items: 8,
            source: s.len(),
            room: s.len(),
        },
    }
}

// The transaction of 907 bytes that has every feature. The byte of a body at position p is letter p mod 62 of A to Z, a to z, 0 to 9.
pub(crate) fn full() -> Load {
    read(
        b"\x04\x03\x02\x01\x01\x03\
        GHIJKLMNOPQRSTUVWXYZabcdefghijkl\x05\x00\x00\xc0\x03rst\xfd\xff\xff\xffyz0123456789ABCDEFGHIJKLMNOPQRSTUVWXYZabcdefghijklmnopqrstuvwxyz\x01\x00\x00\x01\x02\x03\x04\x05\x06\x08ABCDEFGHIJKLMNOPQRSTUVWXYZabcdef\
        ghijklmnopqrstuvwxyz0123456789AB\xff\xff\xff\xff\x00\x01\x00\x00\x00\
        LMNOPQRSTUVWXYZabcdefghijklmnopq\xff\xff\xff\xbf\x02wx\xfe\xff\xff\xff23456789ABCDEFGHIJKLMNOPQRSTUVWXYZabcdefghijklmnopqrstuvwxyz0123\x00\x01\x80\x00\x00\x00\x00\x00\x00\x01\
        \x04\
        \x01GHIJKLMNOPQRSTUVWXYZabcdefghijkl\x01\x00\x00\x00\x01\x00\x00\x00\x02\x00\x00\
        \x0ayz0123456789ABCDEFGHIJKLMNOPQRST\x08VWXYZabcdefghijklmnopqrstuvwxyz0\x0223456789ABCDEFGHIJKLMNOPQRSTUVWX\x04Zabc\
        \x0befghijklmnopqrstuvwxyz0123456789\x09BCDEFGHIJKLMNOPQRSTUVWXYZabcdefg\x03ijklmnopqrstuvwxyz0123456789ABCD\x01F\
        \x00\x00\x01JKLMNOPQRSTUVWXYZabcdefghijklmno\xfd\xfd\x00stuvwxyz0123456789ABCDEFGHIJKLMNOPQRSTUVWXYZabcdefghijklmnopqrstuvwxyz0123456789ABCDEFGHIJKLMNOPQRSTUVWXYZabcdefghijklmnopqrstuvwxyz0123456789ABCDEFGHIJKLMNOPQRSTUVWXYZabcdefghijklmnopqrstuvwxyz0123456789ABCDEFGHIJKLMNOPQRSTUVWXYZabcdefghijklmnopqrstuvw\
        \x0d\x0c\x0b\x0a\
        \x0223\x015\x02\x0389A\x00\x01\x05EFGHI\
        \x00\x00\x00\x00\
        \x00\x02PQ\x01\x01T\x00\
        \x00\x00\
        \x03YZa\x02cd\
        \x01f\x00\
        \x00\x04jklm",
    )
}

// The same, from a source that has the bodies alone, and # for every other byte.
fn bodies() -> Load {
    let mut l = full();
    l.source = spread(
        b"######\
        GHIJKLMNOPQRSTUVWXYZabcdefghijkl#####rst####yz0123456789ABCDEFGHIJKLMNOPQRSTUVWXYZabcdefghijklmnopqrstuvwxyz##########ABCDEFGHIJKLMNOPQRSTUVWXYZabcdef\
        ghijklmnopqrstuvwxyz0123456789AB#########\
        LMNOPQRSTUVWXYZabcdefghijklmnopq#####wx####23456789ABCDEFGHIJKLMNOPQRSTUVWXYZabcdefghijklmnopqrstuvwxyz0123##########\
        #\
        #GHIJKLMNOPQRSTUVWXYZabcdefghijkl###########\
        #yz0123456789ABCDEFGHIJKLMNOPQRST#VWXYZabcdefghijklmnopqrstuvwxyz0#23456789ABCDEFGHIJKLMNOPQRSTUVWX#Zabc\
        #efghijklmnopqrstuvwxyz0123456789#BCDEFGHIJKLMNOPQRSTUVWXYZabcdefg#ijklmnopqrstuvwxyz0123456789ABCD#F\
        ###JKLMNOPQRSTUVWXYZabcdefghijklmno###stuvwxyz0123456789ABCDEFGHIJKLMNOPQRSTUVWXYZabcdefghijklmnopqrstuvwxyz0123456789ABCDEFGHIJKLMNOPQRSTUVWXYZabcdefghijklmnopqrstuvwxyz0123456789ABCDEFGHIJKLMNOPQRSTUVWXYZabcdefghijklmnopqrstuvwxyz0123456789ABCDEFGHIJKLMNOPQRSTUVWXYZabcdefghijklmnopqrstuvw\
        ####\
        #23#5##89A###EFGHI\
        ####\
        ##PQ##T#\
        ##\
        #YZa#cd\
        #f#\
        ##jklm",
    );
    l
}

// 01's load of 11 bytes. Each load is a name and its bytes: what is the same in them is `read`.
fn empty() -> Load {
    read(b"\x02\x00\x00\x00\x00\x00\x00\x00\x00\x00\x00")
}

// 01's load of 103 bytes.
fn small() -> Load {
    read(
        b"\x02\x00\x00\x00\x01\
        \x01GHIJKLMNOPQRSTUVWXYZabcdefghijkl\x00\x00\x00\x00\x00\xfe\xff\xff\xff\
        \x01\x01xyz0123456789ABCDEFGHIJKLMNOPQRS\x01\x00\x00\x00\x00\x00\x00\x01\x90\x00\x00\
        \x00\x00\x00\x00\
        \x00\x00\x01\x00\x00\x00\x00",
    )
}

// 01's load of 96 bytes, flag 0.
fn plain() -> Load {
    read(
        b"\x02\x00\x00\x00\x00\
        \x01GHIJKLMNOPQRSTUVWXYZabcdefghijkl\x00\x00\x00\x00\x00\xfe\xff\xff\xff\
        \x01\x01xyz0123456789ABCDEFGHIJKLMNOPQRS\x01\x00\x00\x00\x00\x00\x00\x01\x90\x00\x00\
        \x00\x00\x00\x00",
    )
}
