// Texts with the refusals that they get, rows that the writer refuses, and tables that are read and written.
#![tactic(auto)]

#[cfg(test)]
mod tests {
    use arrayvec::{ArrayVec, CapacityError};
    use fault::{Fault, Layer};
    use std::process::Abort;
    use std::test::Fail;
    use table::Table;
    use table::rows::{
        HeapRow, KindRow, MAX_KINDS, MAX_TASKS, NO_KIND, NO_TASK, StaticRow, TaskRow,
    };

    // How many good lines go before; a text; the number, the line and the column of its refusal.
    struct Case(usize, &'static [u8], u8, usize, u32);

    static WRONG: [Case; 75] = [
        // the text: empty, or without a last line end
        Case(0, b"", 6, 0, 0),
        Case(0, b"heap,64,40", 6, 0, 0),
        Case(3, b"task,50,50,5,2,1,1,0", 6, 0, 0),
        Case(0, b"\0", 6, 0, 0),
        // the first word: empty, of other bytes, longer, shorter, or with something before it
        Case(0, b"\n", 2, 1, 1),
        Case(0, b"Heap,64,40\n", 2, 1, 1),
        Case(0, b"he\0ap,64,40\n", 2, 1, 1),
        Case(0, b"\xffheap,64,40\n", 2, 1, 1),
        Case(0, b"heaps,64,40\n", 2, 1, 1),
        Case(0, b"hea,64,40\n", 2, 1, 1),
        Case(0, b" heap,64,40\n", 2, 1, 1),
        Case(0, b",64,40\n", 2, 1, 1),
        // the order of lines
        Case(0, b"static,4,2\n", 2, 1, 1),
        Case(1, b"heap,64,40\n", 2, 2, 1),
        Case(2, b"task,50,50,5,2,1,1,0\n", 2, 3, 1),
        Case(3, b"tasks,50\n", 2, 4, 1),
        Case(3, b"\n", 2, 4, 1),
        Case(4, b"kind,2,2\n", 2, 5, 1),
        Case(4, b"end\n", 2, 5, 1),
        Case(4, b"\n", 2, 5, 1),
        // an end too early
        Case(1, b"", 2, 2, 1),
        Case(2, b"", 2, 3, 1),
        Case(3, b"", 2, 4, 1),
        // no number: empty, a leading zero, other bytes, eleven digits
        Case(0, b"heap,,40\n", 3, 1, 6),
        Case(0, b"heap,64,\n", 3, 1, 9),
        Case(0, b"heap,064,40\n", 3, 1, 6),
        Case(0, b"heap,00,40\n", 3, 1, 6),
        Case(0, b"heap,6x,40\n", 3, 1, 6),
        Case(0, b"heap, 64,40\n", 3, 1, 6),
        Case(0, b"heap,+64,40\n", 3, 1, 6),
        Case(0, b"heap,64,4\0\n", 3, 1, 9),
        Case(0, b"heap,64,4\xb2\n", 3, 1, 9),
        Case(0, b"heap,64,40\r\n", 3, 1, 9),
        Case(0, b"heap,99999999999,40\n", 3, 1, 6),
        Case(3, b"task,050,50,5,2,1,1,0\n", 3, 4, 6),
        // the limits of the heap, the static line and a kind
        Case(0, b"heap,0,40\n", 4, 1, 6),
        Case(0, b"heap,8193,40\n", 4, 1, 6),
        Case(0, b"heap,9999999999,40\n", 4, 1, 6),
        Case(0, b"heap,4294967296,40\n", 4, 1, 6),
        Case(0, b"heap,64,0\n", 4, 1, 9),
        Case(0, b"heap,64,257\n", 4, 1, 9),
        Case(1, b"static,8193,2\n", 4, 2, 8),
        Case(1, b"static,4,257\n", 4, 2, 10),
        Case(2, b"kind,0,0\n", 4, 3, 6),
        Case(2, b"kind,33,0\n", 4, 3, 6),
        Case(2, b"kind,2,4\n", 4, 3, 8),
        Case(2, b"kind,32,4294967296\n", 4, 3, 9),
        // the limits of a task
        Case(3, b"task,0,50,5,2,1,1,0\n", 4, 4, 6),
        Case(3, b"task,1000001,50,5,2,1,1,0\n", 4, 4, 6),
        Case(3, b"task,50,0,5,2,1,1,0\n", 4, 4, 9),
        Case(3, b"task,50,51,5,2,1,1,0\n", 4, 4, 9),
        Case(3, b"task,50,40,0,2,1,1,0\n", 4, 4, 12),
        Case(3, b"task,50,40,41,2,1,1,0\n", 4, 4, 12),
        Case(3, b"task,50,50,5,8193,1,1,0\n", 4, 4, 14),
        Case(3, b"task,50,50,5,2,257,1,0\n", 4, 4, 16),
        Case(3, b"task,50,50,5,2,1,65,0\n", 4, 4, 18),
        // a life or a consumer, another task of the table
        Case(3, b"task,50,50,5,2,1,1,2\n", 4, 4, 20),
        Case(3, b"task,50,50,5,2,1,0,0\n", 4, 4, 20),
        Case(3, b"task,50,50,5,2,1,0,17\n", 4, 4, 20),
        Case(3, b"task,50,50,5,2,1,0,1\n", 4, 4, 20),
        Case(3, b"task,100,100,20,4,2,0,2\n", 4, 4, 23),
        Case(4, b"task,50,50,5,2,1,0,2\n", 4, 5, 20),
        Case(4, b"task,50,50,5,2,1,0,9\n", 4, 5, 20),
        // fields missing and surplus
        Case(0, b"heap\n", 5, 1, 5),
        Case(0, b"heap,64\n", 5, 1, 8),
        Case(0, b"heap,64,40,1\n", 5, 1, 11),
        Case(0, b"heap,64,40,\n", 5, 1, 11),
        Case(3, b"task,50,50,5,2,1,1\n", 5, 4, 19),
        Case(3, b"task,50,50,5,2,1,1,0,0\n", 5, 4, 21),
        // the first of several: by field, then by line, then the consumers
        Case(0, b"heap,x\n", 3, 1, 6),
        Case(0, b"heap,64,257,1\n", 4, 1, 9),
        Case(3, b"task,0,9,x\n", 4, 4, 6),
        Case(2, b"kind,3,9\nkind\n", 4, 3, 8),
        Case(3, b"task,50,50,5,2,1,0,9\ntask,x\n", 3, 5, 6),
        Case(3, b"task,9,9,9,9,9,0,9\nkind\n", 2, 5, 1),
    ];

    // How many good lines go before, and a text that is accepted after them.
    struct Good(usize, &'static [u8]);

    static GOOD: [Good; 5] = [
        Good(
            2,
            b"kind,2,2\ntask,50,50,5,2,1,1,0\ntask,100,100,20,4,2,1,0\n",
        ),
        Good(2, b"kind,2,3\ntask,50,50,5,2,1,1,0\n"),
        Good(2, b"kind,2,2\nkind,1,0\ntask,1,1,1,0,0,1,0\n"),
        Good(
            2,
            b"kind,32,4294967295\ntask,1000000,1000000,1000000,8192,256,64,0\n",
        ),
        Good(2, b"kind,2,2\ntask,50,50,5,2,1,0,2\ntask,50,50,5,2,1,0,1\n"),
    ];

    const HEAP: HeapRow = HeapRow {
        space: 64,
        handles: 40,
    };

    const NO_SPACE: HeapRow = HeapRow { space: 0, ..HEAP };

    const VAST_SPACE: HeapRow = HeapRow {
        space: u32::MAX,
        ..HEAP
    };

    const MANY_HANDLES: HeapRow = HeapRow {
        space: 8192,
        handles: 257,
    };

    const STATICS: StaticRow = StaticRow {
        words: 4,
        objects: 2,
    };

    const KIND: KindRow = KindRow { size: 2, map: 2 };

    const WIDE_MAP: KindRow = KindRow { map: 4, ..KIND };

    const TASK: TaskRow = TaskRow {
        period: 50,
        deadline: 50,
        units: 5,
        words: 2,
        objects: 1,
        life: 1,
        consumer: 0,
    };

    const LONG_PERIOD: TaskRow = TaskRow {
        period: u32::MAX,
        ..TASK
    };

    const LATE: TaskRow = TaskRow {
        deadline: 51,
        ..TASK
    };

    const NO_LIFE: TaskRow = TaskRow { life: 0, ..TASK };

    const FEEDS_TWO: TaskRow = TaskRow {
        consumer: 2,
        ..NO_LIFE
    };

    const STRAY_KIND: KindRow = KindRow { size: 77, map: 78 };

    const STRAY_TASK: TaskRow = TaskRow {
        period: 71,
        deadline: 72,
        units: 73,
        words: 74,
        objects: 75,
        life: 76,
        consumer: 77,
    };

    // Rows for the writer: a heap, so many of a kind and of a task, and the room in bytes; and their refusal.
    struct Rows {
        heap: HeapRow,
        kind: KindRow,
        kinds: usize,
        task: TaskRow,
        tasks: usize,
        room: usize,
        number: u8,
        line: usize,
        column: u32,
    }

    // Rows that are written, with room to spare.
    const GOOD_ROWS: Rows = Rows {
        heap: HEAP,
        kind: KIND,
        kinds: 1,
        task: TASK,
        tasks: 1,
        room: 256,
        number: 0,
        line: 0,
        column: 0,
    };

    static UNWRITTEN: [Rows; 17] = [
        // limits
        Rows {
            heap: NO_SPACE,
            number: 4,
            line: 1,
            column: 6,
            ..GOOD_ROWS
        },
        Rows {
            heap: VAST_SPACE,
            number: 4,
            line: 1,
            column: 6,
            ..GOOD_ROWS
        },
        Rows {
            heap: MANY_HANDLES,
            number: 4,
            line: 1,
            column: 11,
            ..GOOD_ROWS
        },
        Rows {
            kind: WIDE_MAP,
            number: 4,
            line: 3,
            column: 8,
            ..GOOD_ROWS
        },
        Rows {
            task: LONG_PERIOD,
            number: 4,
            line: 4,
            column: 6,
            ..GOOD_ROWS
        },
        Rows {
            kinds: 2,
            task: LATE,
            number: 4,
            line: 5,
            column: 9,
            ..GOOD_ROWS
        },
        Rows {
            kinds: 3,
            task: NO_LIFE,
            number: 4,
            line: 6,
            column: 20,
            ..GOOD_ROWS
        },
        // consumers: none of one task; the second of three feeds itself
        Rows {
            task: FEEDS_TWO,
            number: 4,
            line: 4,
            column: 20,
            ..GOOD_ROWS
        },
        Rows {
            task: FEEDS_TWO,
            tasks: 3,
            number: 4,
            line: 5,
            column: 20,
            ..GOOD_ROWS
        },
        // counts
        Rows {
            kinds: 0,
            number: 2,
            line: 3,
            column: 1,
            ..GOOD_ROWS
        },
        Rows {
            kinds: 33,
            number: 2,
            line: 35,
            column: 1,
            ..GOOD_ROWS
        },
        Rows {
            kinds: 64,
            task: LONG_PERIOD,
            tasks: 0,
            room: 0,
            number: 2,
            line: 35,
            column: 1,
            ..GOOD_ROWS
        },
        Rows {
            kinds: 2,
            tasks: 0,
            number: 2,
            line: 5,
            column: 1,
            ..GOOD_ROWS
        },
        Rows {
            tasks: 17,
            number: 2,
            line: 20,
            column: 1,
            ..GOOD_ROWS
        },
        // room, which comes last
        Rows {
            room: 51,
            number: 6,
            ..GOOD_ROWS
        },
        Rows {
            room: 0,
            number: 6,
            ..GOOD_ROWS
        },
        Rows {
            task: LATE,
            room: 0,
            number: 4,
            line: 4,
            column: 9,
            ..GOOD_ROWS
        },
    ];

    static GOOD_LINES: [&[u8]; 4] = [
        b"heap,64,40\n",
        b"static,4,2\n",
        b"kind,2,2\n",
        b"task,50,50,5,2,1,1,0\n",
    ];

    // A text of so many of the good lines.
    fn good_lines<const N: usize>(count: usize) -> Result<ArrayVec<u8, N>, CapacityError> {
        let mut text = ArrayVec::new();
        for line in GOOD_LINES.iter().take(count) {
            text.try_extend_from_slice(line)?;
        }
        Ok(text)
    }

    fn tells(fault: Fault, number: u8, line: usize, column: u32) -> bool {
        fault.number() == number
            && fault.place_number() == line
            && fault.column() == column
            && fault.layer == Layer::Text
    }

    // A text is refused so, and the lists stay as they were.
    fn refused(text: &[u8], number: u8, line: usize, column: u32) -> bool {
        let mut kinds = [STRAY_KIND; MAX_KINDS];
        let mut tasks = [STRAY_TASK; MAX_TASKS];
        table::read(text, &mut kinds, &mut tasks).is_err_and(|fault| tells(
            fault, number, line, column,
        )) && kinds[0] == STRAY_KIND
            && tasks[0] == STRAY_TASK
    }

    #[test]
    fn wrong_texts(rt: HostRuntime) -> Result<(), Fail> {
        for (i, &Case(good, end, number, line, column)) in WRONG.iter().enumerate() {
            let mut text: ArrayVec<u8, 256> = good_lines(good)?;
            text.try_extend_from_slice(end)?;
            assert!(rt; refused(&text, number, line, column), "case {i}");
        }
        Ok(())
    }

    // Rows are refused so, and the buffer stays as it was.
    fn unwritten(rt: &impl Abort, i: usize, rows: &Rows) {
        let kinds = [rows.kind; 64];
        let tasks = [rows.task; 32];
        let mut buffer = [7u8; 256];
        assert!(rt;
            rows.kinds <= 64 && rows.tasks <= 32 && rows.room <= 256,
            "case {i}"
        );
        let written = table_writer::write(
            rows.heap,
            STATICS,
            &kinds[..rows.kinds],
            &tasks[..rows.tasks],
            &mut buffer[..rows.room],
        );
        let refused = written.is_err_and(|fault| tells(fault, rows.number, rows.line, rows.column));
        assert!(rt; refused, "case {i}");
        assert!(rt; buffer[0] == 7, "case {i}");
    }

    #[test]
    fn wrong_rows(rt: HostRuntime) {
        for (i, rows) in UNWRITTEN.iter().enumerate() {
            unwritten(&rt, i, rows);
        }
    }

    // What is read is written again as the same text, and the rest of the buffer stays.
    fn copied(text: &[u8]) -> Result<bool, Fault> {
        let mut kinds = [NO_KIND; MAX_KINDS];
        let mut tasks = [NO_TASK; MAX_TASKS];
        let table = table::read(text, &mut kinds, &mut tasks)?;
        if table.kind_count > MAX_KINDS || table.task_count > MAX_TASKS {
            return Ok(false);
        }
        let mut buffer = [7u8; 2048];
        let n = table_writer::write(
            table.heap,
            table.statics,
            &kinds[..table.kind_count],
            &tasks[..table.task_count],
            &mut buffer,
        )?;
        Ok(n == text.len() && n < 2048 && buffer.starts_with(text) && buffer[n] == 7)
    }

    #[test]
    fn good_texts(rt: HostRuntime) -> Result<(), Fail> {
        for (i, &Good(good, end)) in GOOD.iter().enumerate() {
            let mut text: ArrayVec<u8, 256> = good_lines(good)?;
            text.try_extend_from_slice(end)?;
            assert!(rt; copied(&text) == Ok(true), "case {i}");
        }
        Ok(())
    }

    // A table of so many kinds and tasks.
    fn counted(kinds: usize, tasks: usize) -> Result<ArrayVec<u8, 1024>, CapacityError> {
        let mut text = good_lines(2)?;
        for _ in 0..kinds {
            text.try_extend_from_slice(b"kind,1,0\n")?;
        }
        for _ in 0..tasks {
            text.try_extend_from_slice(b"task,50,50,5,2,1,1,0\n")?;
        }
        Ok(text)
    }

    // The largest table is accepted; with a kind or a task more it is refused at that line.
    #[test]
    fn counts(rt: HostRuntime) -> Result<(), Fail> {
        assert!(rt; copied(&counted(32, 16)?)?);
        assert!(rt; refused(&counted(33, 16)?, 2, 35, 1));
        assert!(rt; refused(&counted(32, 17)?, 2, 51, 1));
        Ok(())
    }

    #[test]
    fn rows_in_their_places(rt: HostRuntime) -> Result<(), Fail> {
        let mut kinds = [STRAY_KIND; 2];
        let mut tasks = [STRAY_TASK; 2];
        let text: ArrayVec<u8, 256> = good_lines(4)?;
        let table = table::read(&text, &mut kinds, &mut tasks)?;
        let counted = Table {
            heap: HEAP,
            statics: STATICS,
            kind_count: 1,
            task_count: 1,
        };
        assert_eq!(rt; table, counted);
        assert_eq!(rt; kinds, [KIND, STRAY_KIND]);
        assert_eq!(rt; tasks, [TASK, STRAY_TASK]);
        Ok(())
    }

    // With room for so many kinds and tasks, a table of two each is refused at a line, or accepted.
    fn full(
        rt: &impl Abort,
        kind_room: usize,
        task_room: usize,
        line: Option<usize>,
    ) -> Result<(), Fail> {
        let mut kinds = [NO_KIND; 2];
        let mut tasks = [NO_TASK; 2];
        assert!(rt; kind_room <= 2 && task_room <= 2);
        let read = table::read(
            &counted(2, 2)?,
            &mut kinds[..kind_room],
            &mut tasks[..task_room],
        );
        match line {
            None => assert!(rt; read.is_ok()),
            Some(line) => assert!(rt; read.is_err_and(|fault| tells(fault, 2, line, 1))),
        }
        Ok(())
    }

    #[test]
    fn full_lists(rt: HostRuntime) -> Result<(), Fail> {
        full(&rt, 2, 2, None)?;
        full(&rt, 0, 2, Some(3))?;
        full(&rt, 1, 2, Some(4))?;
        full(&rt, 2, 0, Some(5))?;
        full(&rt, 2, 1, Some(6))
    }

    // Nothing but line ends, up to one byte more than a text may have.
    #[test]
    fn sizes(rt: HostRuntime) {
        let text = [b'\n'; 8193];
        assert!(rt; refused(&text[..1], 2, 1, 1));
        assert!(rt; refused(&text[..8192], 2, 1, 1));
        assert!(rt; refused(&text, 6, 0, 0));
    }
}
