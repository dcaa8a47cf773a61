// Rules 15 to 17 over the node table of a text, the offsets of its city objects and the rows of the numbers of the objects that they list.
// Each function that looks for faults takes the least so far and gives the least.
// Rule 15 goes first and fills two sets of pairs of objects' numbers: who lists whom as a child, and who lists whom as a parent. Rule 17 then asks the sets.
// Rows are judged by their numbers; only where one breaks a rule is its list looked up, for the places.
#![tactic(auto)]

ghost use Rattle.std.specs.Prelude.{◌*◌, ◌<◌, ◌≤◌, length};
ghost use Rattle.utf8.specs.Ascii.{ascii};
ghost use Rattle.words.specs.Words.{object_words, code_of, is, is_second_level};
ghost use Rattle.nodes.specs.Says.{Node, Sought, Gives, GivesFound};
ghost use Rattle.fields.specs.Fields.{text_in, type_text};
ghost use Rattle.marks.specs.Says.{Whole};
ghost use Rattle.links.specs.Passes.{absent_under, open_children, open_parents};
ghost use Rattle.links.specs.Says.{AbsentGives, Sized, AbsentsGive, SizedUnder, AbsentUnder, ListedAs, ObjectGives, AllGive, Fills, OpenGives, OpensGive, OpenUnder, ChildrenOpen, Links, ParentGives, OpenFaults, Empty, CheckedAt, EachGives, Town, Marks, LinkFaults, Ready, LinksGive};

// Rule 15 of the value at node k, if it is a string, after those whose objects are in the set. Then its object is.
fn absent(
    text: &[u8],
    table: &[u32],
    k: usize,
    number: usize,
    count: usize,
    seen: &mut [u8],
    best: u32,
) -> u32
    requires { (Node text.now table.now k) × (128 ≤ length seen.old) × (count ≤ 1024) }
    ensures { AbsentGives text.now table.now k number count seen.old seen.new best result }
{
    if !nodes::is_string(text, table, k) {
        return best;
    }
    shapes::unless(
        marks::mark(seen, 0, number, count),
        15,
        text,
        table,
        k,
        best,
    )
}

// Rule 15 of the list at node i, of which the numbers are those of its objects.
fn absent_list(
    text: &[u8],
    table: &[u32],
    i: usize,
    numbers: &[u16],
    count: usize,
    best: u32,
) -> u32
    requires { (Sized text.now table.now i numbers.now) × (count ≤ 1024) }
    ensures { AbsentsGive text.now table.now i numbers.now count best result }
{
    let mut space: [u8; 128] = [0; 128];
    let seen: &mut [u8] = &mut space;
    let mut least = best;
    for (k, number) in nodes::elements(text, table, i).zip(numbers) {
        least = absent(text, table, k, usize::from(*number), count, seen, least);
    }
    least
}

// Rule 15 of what the object at node i lists under a name.
fn absent_member(
    text: &[u8],
    table: &[u32],
    i: usize,
    name: &[u8],
    numbers: &[u16],
    count: usize,
    best: u32,
) -> u32
    requires { (SizedUnder text.now table.now i name.now numbers.now) × (count ≤ 1024) }
    ensures { AbsentUnder text.now table.now i name.now numbers.now count best result }
{
    let found = nodes::member(text, table, i, name);
    let Some(k) = found else {
        return best;
    };
    absent_list(text, table, k, numbers, count, best)
}

// Rule 17 of the value at node k, if it is a string, of a list of the object of number `own`: its object has `own` in its row of the set.
fn open(
    text: &[u8],
    table: &[u32],
    k: usize,
    number: usize,
    set: &[u8],
    own: usize,
    best: u32,
) -> u32
    requires { (Node text.now table.now k) × (number < 65536) × (Whole set.now) × (own < 1024) }
    ensures { OpenGives text.now table.now k number set.now own best result }
{
    if !nodes::is_string(text, table, k) {
        return best;
    }
    shapes::unless(marks::answers(set, own, number), 17, text, table, k, best)
}

// Rule 17 of the list at node i, of which the numbers are those of its objects.
// It is no plainer as one function with `absent_list`: that loop writes a set, whose state a closure's contract would have to tell at each element.
fn open_list(
    text: &[u8],
    table: &[u32],
    i: usize,
    numbers: &[u16],
    set: &[u8],
    own: usize,
    best: u32,
) -> u32
    requires { (Sized text.now table.now i numbers.now) × (Whole set.now) × (own < 1024) }
    ensures { OpensGive text.now table.now i numbers.now set.now own best result }
{
    let mut least = best;
    for (k, number) in nodes::elements(text, table, i).zip(numbers) {
        least = open(text, table, k, usize::from(*number), set, own, least);
    }
    least
}

// Rule 17 of what the object at node i lists under a name.
fn open_member(
    text: &[u8],
    table: &[u32],
    i: usize,
    name: &[u8],
    numbers: &[u16],
    set: &[u8],
    own: usize,
    best: u32,
) -> u32
    requires { (SizedUnder text.now table.now i name.now numbers.now) × (Whole set.now) × (own < 1024) }
    ensures { OpenUnder text.now table.now i name.now numbers.now set.now own best result }
{
    let found = nodes::member(text, table, i, name);
    let Some(k) = found else {
        return best;
    };
    open_list(text, table, k, numbers, set, own, best)
}

// Is the object at node i a `CityObjectGroup`?
fn is_group(text: &[u8], table: &[u32], i: usize) -> bool
    requires { Node text.now table.now i }
    ensures { Gives (λ v. is "CityObjectGroup" (type_text v)) text.now table.now i result }
{
    let kind = nodes::member(text, table, i, b"type");
    fields::found_word(text, table, kind, b"CityObjectGroup")
}

// Rule 17 of the children of the object at node i, of number `own`, unless it is a group.
fn open_kin(
    text: &[u8],
    table: &[u32],
    i: usize,
    numbers: &[u16],
    set: &[u8],
    own: usize,
    best: u32,
) -> u32
    requires { (SizedUnder text.now table.now i (ascii "children") numbers.now) × (Whole set.now) × (own < 1024) }
    ensures { ChildrenOpen text.now table.now i numbers.now set.now own best result }
{
    if is_group(text, table, i) {
        return best;
    }
    open_member(text, table, i, b"children", numbers, set, own, best)
}

// Is the type that was found one of the second level?
fn is_second_level(text: &[u8], table: &[u32], found: Option<usize>) -> bool
    requires { Sought text.now table.now found }
    ensures { GivesFound (λ o. is_second_level (code_of object_words (text_in o))) text.now table.now found result }
{
    let Some(k) = found else {
        return false;
    };
    if !nodes::is_string(text, table, k) {
        return false;
    }
    let from = fields::text_from(text, table, k);
    let to = fields::text_to(text, table, k);
    if !types::may_be_second_level(text, from, to) {
        return false;
    }
    words::object_code(text, from, to) >= 17
}

// Rule 16: a second-level object lists a parent. `count` is how many the object at node i lists.
fn has_parent(text: &[u8], table: &[u32], i: usize, count: usize, best: u32) -> u32
    requires { Node text.now table.now i }
    ensures { ParentGives text.now table.now i count best result }
{
    if count != 0 {
        return best;
    }
    let kind = nodes::member(text, table, i, b"type");
    shapes::unless(
        !is_second_level(text, table, kind),
        16,
        text,
        table,
        i,
        best,
    )
}

// Rule 17 of the parents of the object at node i, of number `own`.
fn open_above(
    text: &[u8],
    table: &[u32],
    i: usize,
    numbers: &[u16],
    set: &[u8],
    own: usize,
    best: u32,
) -> u32
    requires { (SizedUnder text.now table.now i (ascii "parents") numbers.now) × (Whole set.now) × (own < 1024) }
    ensures { OpenUnder text.now table.now i (ascii "parents") numbers.now set.now own best result }
{
    if marks::answered(set, own, numbers) {
        return best;
    }
    open_member(text, table, i, b"parents", numbers, set, own, best)
}

// The least of best and of what the check finds at each object, by the object's number.
fn each_object<F: Fn(usize, u32) -> u32>(offsets: &[usize], check: F, best: u32) -> u32
    requires { CheckedAt (length offsets.now) (F.pre check) }
    ensures { EachGives offsets.now (F.post check) best result }
{
    let mut least = best;
    for k in 0..offsets.len() {
        least = check(k, least);
    }
    least
}

// The objects of a text: the nodes of their names in its table, and the rows of the children and of the parents that they list.
#[derive(Clone, Copy)]
struct City<'a> {
    text: &'a [u8],
    table: &'a [u32],
    offsets: &'a [usize],
    children: &'a [u16],
    parents: &'a [u16],
}

impl<'a> City<'a> {
    // Rule 15 of what the object of number k lists under a name.
    fn absent_object(&self, name: &[u8], rows: &[u16], k: usize, best: u32) -> u32
        requires { (ListedAs self.now.text.now self.now.table.now self.now.offsets.now name.now rows.now) × (k < length self.now.offsets.now) }
        ensures { ObjectGives self.now.text.now self.now.table.now self.now.offsets.now (absent_under name.now) k best result }
    {
        let own = self.offsets[k];
        let numbers = marks::row(rows, k);
        absent_member(
            self.text,
            self.table,
            own + 3,
            name,
            numbers,
            self.offsets.len(),
            best,
        )
    }

    // Rule 15 of what all objects list under a name.
    fn absent_all(&self, name: &[u8], rows: &[u16], best: u32) -> u32
        requires { ListedAs self.now.text.now self.now.table.now self.now.offsets.now name.now rows.now }
        ensures { AllGive self.now.text.now self.now.table.now self.now.offsets.now (absent_under name.now) best result }
    {
        each_object(
            self.offsets,
            |k, least| self.absent_object(name, rows, k, least),
            best,
        )
    }

    // Rule 15 of what all objects list under a name, which the set, empty before, has then.
    fn mark_all(&self, name: &[u8], rows: &[u16], set: &mut [u8], best: u32) -> u32
        requires { (ListedAs self.now.text.now self.now.table.now self.now.offsets.now name.now rows.now)
            × (Empty set.old (length self.now.offsets.now)) }
        ensures { Fills self.now.text.now self.now.table.now self.now.offsets.now name.now set.old set.new best result }
    {
        if marks::mark_all(set, rows, self.offsets.len()) {
            return best;
        }
        self.absent_all(name, rows, best)
    }

    // Rule 17 of the children of the object of number k.
    fn open_children(&self, set: &[u8], k: usize, best: u32) -> u32
        requires { (Links self.now.text.now self.now.table.now self.now.offsets.now "children" self.now.children.now "parents" set.now)
            × (k < length self.now.offsets.now) }
        ensures { ObjectGives self.now.text.now self.now.table.now self.now.offsets.now open_children k best result }
    {
        let numbers = marks::row(self.children, k);
        if marks::answered(set, k, numbers) {
            return best;
        }
        let own = self.offsets[k];
        open_kin(self.text, self.table, own + 3, numbers, set, k, best)
    }

    // Rule 17 of the children of all objects.
    fn open_all_children(&self, set: &[u8], best: u32) -> u32
        requires { Links self.now.text.now self.now.table.now self.now.offsets.now "children" self.now.children.now "parents" set.now }
        ensures { AllGive self.now.text.now self.now.table.now self.now.offsets.now open_children best result }
    {
        each_object(
            self.offsets,
            |k, least| self.open_children(set, k, least),
            best,
        )
    }

    // Rules 16 and 17 of the parents of the object of number k.
    fn open_parents(&self, set: &[u8], k: usize, best: u32) -> u32
        requires { (Links self.now.text.now self.now.table.now self.now.offsets.now "parents" self.now.parents.now "children" set.now)
            × (k < length self.now.offsets.now) }
        ensures { ObjectGives self.now.text.now self.now.table.now self.now.offsets.now open_parents k best result }
    {
        let numbers = marks::row(self.parents, k);
        let own = self.offsets[k];
        let i = own + 3;
        let a = open_above(self.text, self.table, i, numbers, set, k, best);
        has_parent(self.text, self.table, i, numbers.len(), a)
    }

    // Rules 16 and 17 of the parents of all objects.
    fn open_all_parents(&self, set: &[u8], best: u32) -> u32
        requires { Links self.now.text.now self.now.table.now self.now.offsets.now "parents" self.now.parents.now "children" set.now }
        ensures { AllGive self.now.text.now self.now.table.now self.now.offsets.now open_parents best result }
    {
        each_object(
            self.offsets,
            |k, least| self.open_parents(set, k, least),
            best,
        )
    }

    // Rules 16 and 17 of all objects, where the sets have who lists whom as a child, and as a parent.
    fn open_all(&self, downs: &[u8], ups: &[u8], best: u32) -> u32
        requires links { Links self.now.text.now self.now.table.now self.now.offsets.now "children" self.now.children.now "parents" ups.now }
        requires links_2 { Links self.now.text.now self.now.table.now self.now.offsets.now "parents" self.now.parents.now "children" downs.now }
        ensures { OpenFaults self.now.text.now self.now.table.now self.now.offsets.now best result }
    {
        let a = self.open_all_children(ups, best);
        self.open_all_parents(downs, a)
    }

    // Rule 15 of all objects, with two sets that are empty and have a row for each object; then they have who lists whom as a child, and as a parent.
    fn mark_both(&self, downs: &mut [u8], ups: &mut [u8], best: u32) -> u32
        requires town { Town self.now }
        requires empty { (Empty downs.old (length self.now.offsets.now)) × (Empty ups.old (length self.now.offsets.now)) }
        ensures { Marks self.now downs.old downs.new ups.old ups.new best result }
    {
        let a = self.mark_all(b"children", self.children, downs, best);
        self.mark_all(b"parents", self.parents, ups, a)
    }

    // Rules 15 to 17 of all objects, with two such sets.
    fn links_with(&self, downs: &mut [u8], ups: &mut [u8], best: u32) -> u32
        requires town { Town self.now }
        requires empty { (Empty downs.old (length self.now.offsets.now)) × (Empty ups.old (length self.now.offsets.now)) }
        ensures { LinkFaults self.now.text.now self.now.table.now self.now.offsets.now best result }
    {
        let a = self.mark_both(downs, ups, best);
        self.open_all(downs, ups, a)
    }

    // Rules 15 to 17 of all objects, with sets of N bytes, which have a row for each object. Small sets are cleared sooner.
    fn links_sized<const N: usize>(&self, best: u32) -> u32
        requires { (Town self.now) × (length self.now.offsets.now * 128 ≤ N) × (N ≤ 131072) }
        ensures { LinkFaults self.now.text.now self.now.table.now self.now.offsets.now best result }
    {
        let size = self.offsets.len() * 128;
        let mut first: [u8; N] = [0; N];
        let mut second: [u8; N] = [0; N];
        let downs: &mut [u8] = &mut first;
        let ups: &mut [u8] = &mut second;
        self.links_with(&mut downs[..size], &mut ups[..size], best)
    }

    // Rules 15 to 17 of all objects, with sets of a size that suits their number. It keeps a frame of its own, so that its sets take no stack
    // of what is called before.
    #[inline(never)]
    fn links_long(&self, best: u32) -> u32
        requires { Town self.now }
        ensures { LinkFaults self.now.text.now self.now.table.now self.now.offsets.now best result }
    {
        if self.offsets.len() <= 64 {
            return self.links_sized::<8192>(best);
        }
        self.links_sized::<131072>(best)
    }

    // The same of a short text: one of 4,096 bytes has no more than 200 objects, so that the long way is not taken.
    fn links_short(&self, best: u32) -> u32
        requires { Town self.now }
        ensures { LinkFaults self.now.text.now self.now.table.now self.now.offsets.now best result }
    {
        if self.offsets.len() <= 64 {
            return self.links_sized::<8192>(best);
        }
        if self.offsets.len() <= 200 {
            return self.links_sized::<25600>(best);
        }
        self.links_long(best)
    }
}

// Rules 15 to 17 of all objects. The rows of a short text have at most 2,065 words.
pub fn links(
    text: &[u8],
    table: &[u32],
    offsets: &[usize],
    children: &[u16],
    parents: &[u16],
    best: u32,
) -> u32
    requires { Ready text.now table.now offsets.now children.now parents.now }
    ensures { LinksGive text.now table.now best result }
{
    let city = City {
        text,
        table,
        offsets,
        children,
        parents,
    };
    if children.len() <= 2065 {
        return city.links_short(best);
    }
    city.links_long(best)
}
