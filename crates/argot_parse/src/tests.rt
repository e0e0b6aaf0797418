// Which small files have a tree, and the token of the fault where they have none.
ghost use Rattle.std.specs.Prelude.{length, ◌<◌, ◌^◌};

use crate::{ParseFault, parse};
use argot_lex::lex;
use argot_stubs::stub;
use std::alloc::Global;
use std::test::Fail;

// A case a line: what stands around the text, the text, and `ok` or the number of the fault's token. The wanted answers
// are those of the reference program of the specification, gone through by hand.
const CASES: &str = "\
File\tpackage p\tok\n\
File\tpackage p; import \"fmt\"\tok\n\
File\tpackage p; import (\"fmt\"; . \"os\"; m \"log\"; _ \"io\";)\tok\n\
File\tpackage p; import ()\tok\n\
File\tpackage p; import (\"a\"; \"b\"); var x int\tok\n\
File\tpackage p; func f()\tok\n\
File\t\t0\n\
File\tpackage\t1\n\
File\tpackage 1\t1\n\
File\timport \"fmt\"\t0\n\
File\tpackage p; var x int; import \"fmt\"\t7\n\
File\tpackage p import \"fmt\"\t2\n\
File\tpackage p; import fmt\t5\n\
File\tpackage p; import (\"a\" \"b\")\t6\n\
File\tpackage p; import (a b \"c\")\t6\n\
File\tpackage p;;\t3\n\
File\tpackage p; x := 1\t3\n\
File\tpackage p; import (\"fmt\"; m \"log\"; . \"os\"; _ \"io\"; \"strings\"); func\t20\n\
File\tpackage p; type T struct { a, b int; c *p.T `tag`; d struct { e []string;\t27\n\
File\tpackage p; type I interface { m(a int, b ...string) (int, error);\t22\n\
File\tpackage p; func f(a, b int, c func(x string, ys ...int) (int, error\t25\n\
File\tpackage p; func f() { x, y := g(a.b[1:n], h(c, func(\t29\n\
File\tpackage p; var table = map[string][]T{\"a\": {1, 2}, \"b\": {{x: 1}, T{y\t34\n\
File\tpackage p; func f() { if a := g(); a < 1 { return } else if b := h(a); b\t31\n\
File\tpackage p; func f() { switch x := v.(type) { case int, *T: g(x); case [\t30\n\
File\tpackage p; func f() { L: for i, v := range xs { for j := 0; j < len(v); j\t31\n\
File\tpackage p; func f() { select { case v, ok := <-a: g(v, ok); case b <- h(1\t31\n\
Top\tfunc f(int, b string)\tok\n\
Top\tfunc f() {}\tok\n\
Top\tfunc f()\tok\n\
Top\tfunc (t T) m() {}\tok\n\
Top\tfunc (*T) m() {}\tok\n\
Top\tfunc (t *T,) m() {}\tok\n\
Top\tfunc f(a, b int, c string) (x int, err error) { return }\tok\n\
Top\tfunc f(int, string) string\tok\n\
Top\tfunc f(a ...int)\tok\n\
Top\tfunc f(...int)\tok\n\
Top\tfunc f(a int,) (b int,)\tok\n\
Top\tfunc f() (int)\tok\n\
Top\tfunc f[T any](a T) T { return a }\tok\n\
Top\tfunc f[A, B any](a A, b B) {}\tok\n\
Top\tfunc f(a func(int) string, b chan<- int)\tok\n\
Top\tfunc f() func() int\tok\n\
Top\tfunc f(p.T) p.T\tok\n\
Top\tfunc f(a, b p.T)\tok\n\
Top\tfunc f(a [2]int)\tok\n\
Top\tfunc f(a, b)\tok\n\
Top\tfunc () m() {}\t5\n\
Top\tfunc (a T, b T) m() {}\t8\n\
Top\tfunc (a ...T) m() {}\t6\n\
Top\tfunc f\t5\n\
Top\tfunc f(a int, string)\t10\n\
Top\tfunc f(a ...int, b int)\t10\n\
Top\tfunc f() (a ...int)\t9\n\
Top\tfunc f(a,,b int)\t8\n\
Top\tfunc f(,)\t6\n\
Top\tfunc f(a int b int)\t8\n\
Top\tfunc f() {\t8\n\
Top\tfunc f[](a int)\t6\n\
Top\tfunc 1()\t4\n\
Top\tfunc f() (int\t9\n\
Top\tfunc f(a int, b)\t10\n\
Top\tfunc f(a.b c)\t9\n\
Top\tconst a = 1\tok\n\
Top\tconst a, b = 1, 2\tok\n\
Top\tconst (a = iota; b; c int = 3)\tok\n\
Top\tconst a\tok\n\
Top\tconst ()\tok\n\
Top\tvar a int\tok\n\
Top\tvar a, b int = 1, 2\tok\n\
Top\tvar a = 1\tok\n\
Top\tvar (a int; b = 2;)\tok\n\
Top\tvar ()\tok\n\
Top\ttype T int\tok\n\
Top\ttype T = int\tok\n\
Top\ttype (A int; B = A)\tok\n\
Top\ttype T struct{}\tok\n\
Top\ttype T [n]int\tok\n\
Top\ttype T [2]int\tok\n\
Top\ttype T[A any] int\tok\n\
Top\ttype T[A any] = int\tok\n\
Top\ttype T[A interface{}, B int] struct{ a A }\tok\n\
Top\ttype T [a.b]int\tok\n\
Top\ttype T [a * b]int\tok\n\
Top\ttype T []int\tok\n\
Top\tvar a, b = f()\tok\n\
Top\tconst a int\t6\n\
Top\tconst = 1\t4\n\
Top\tconst (a = 1, b = 2)\t10\n\
Top\tvar a\t5\n\
Top\tvar a int string\t6\n\
Top\tvar = 1\t4\n\
Top\tvar (a)\t6\n\
Top\ttype T\t5\n\
Top\ttype int\t5\n\
Top\ttype T = \t6\n\
Top\ttype (A int B int)\t7\n\
Top\ttype T[A any int\t10\n\
Top\tvar a, = 1\t6\n\
Top\tconst a = \t6\n\
Top\tvar 1 int\t4\n\
Top\ttype 2 int\t4\n\
Top\tx = 1\t3\n\
Type\tint\tok\n\
Type\tp.T\tok\n\
Type\t(int)\tok\n\
Type\t((p.T))\tok\n\
Type\t*int\tok\n\
Type\t**int\tok\n\
Type\t[]int\tok\n\
Type\t[3]int\tok\n\
Type\t[n+1][]int\tok\n\
Type\tmap[string]int\tok\n\
Type\tmap[[2]int][]p.T\tok\n\
Type\tchan int\tok\n\
Type\tchan<- int\tok\n\
Type\t<-chan int\tok\n\
Type\tchan <-chan int\tok\n\
Type\tchan (<-chan int)\tok\n\
Type\t<-chan <-chan int\tok\n\
Type\tchan<- chan int\tok\n\
Type\tfunc()\tok\n\
Type\tfunc(int) string\tok\n\
Type\tfunc(a int) (b int)\tok\n\
Type\tstruct{}\tok\n\
Type\tstruct{ a int }\tok\n\
Type\tstruct{ a, b int; c string `tag` }\tok\n\
Type\tstruct{ T }\tok\n\
Type\tstruct{ *T; p.T; *p.U \"x\" }\tok\n\
Type\tstruct { a int; b int; }\tok\n\
Type\tinterface{}\tok\n\
Type\tinterface{ m() }\tok\n\
Type\tinterface{ m(a int) (string, error); E; p.E }\tok\n\
Type\t[]func() func() int\tok\n\
Type\tstruct{ a []struct{ b int } }\tok\n\
Type\tstruct{ a int; }\tok\n\
Type\t[...]int\t6\n\
Type\t[]\t7\n\
Type\tmap[string]\t9\n\
Type\tmap string\t6\n\
Type\tchan\t6\n\
Type\t<-int\t6\n\
Type\t*\t6\n\
Type\tstruct{ a }b\t9\n\
Type\tstruct{ a, b }\t10\n\
Type\tstruct{ a int b int }\t9\n\
Type\tstruct{ **T }\t8\n\
Type\tstruct{ []int }\t7\n\
Type\tstruct{ (T) }\t7\n\
Type\tinterface{ int | string }\t8\n\
Type\tinterface{ ~int }\t7\n\
Type\tinterface{ m }()\t9\n\
Type\tinterface{ m() n() }\t11\n\
Type\tT[int]\t6\n\
Type\tfunc\t6\n\
Type\tfunc int\t6\n\
Type\tp.q.r\t8\n\
Type\t(int\t7\n\
Type\tstruct\t6\n\
Type\tinterface\t6\n\
Type\t[3\t7\n\
Type\tmap[int\t8\n\
Type\ta.1\t6\n\
Type\tstruct{ a int \"x\" \"y\" }\t10\n\
Type\tstruct{;}\t7\n\
Expression\t1\tok\n\
Expression\t1.5\tok\n\
Expression\t2i\tok\n\
Expression\t'a'\tok\n\
Expression\t\"a\"\tok\n\
Expression\t`a`\tok\n\
Expression\ta\tok\n\
Expression\ta.b\tok\n\
Expression\t(a)\tok\n\
Expression\t(*int)(nil)\tok\n\
Expression\t([]int)(nil)\tok\n\
Expression\ta + b * c\tok\n\
Expression\ta - b - c\tok\n\
Expression\ta && b || c\tok\n\
Expression\ta == b\tok\n\
Expression\t-a\tok\n\
Expression\t+a\tok\n\
Expression\t!a\tok\n\
Expression\t^a\tok\n\
Expression\t*a\tok\n\
Expression\t&a\tok\n\
Expression\t<-a\tok\n\
Expression\t- - a\tok\n\
Expression\ta * -b\tok\n\
Expression\ta &^ b << c >> d\tok\n\
Expression\tf()\tok\n\
Expression\tf(a)\tok\n\
Expression\tf(a, b)\tok\n\
Expression\tf(a, b,)\tok\n\
Expression\tf(a...)\tok\n\
Expression\tf(a, b...,)\tok\n\
Expression\tf(int)\tok\n\
Expression\tf([]int, a)\tok\n\
Expression\tf(map[string]int)\tok\n\
Expression\tf(chan int)\tok\n\
Expression\tmake(<-chan int)\tok\n\
Expression\tf(*[]int)\tok\n\
Expression\tf(*T)\tok\n\
Expression\tf(func())\tok\n\
Expression\tf(struct{}, interface{})\tok\n\
Expression\tf(<-a)\tok\n\
Expression\ta[1]\tok\n\
Expression\ta[:]\tok\n\
Expression\ta[1:]\tok\n\
Expression\ta[:2]\tok\n\
Expression\ta[1:2]\tok\n\
Expression\ta[:2:3]\tok\n\
Expression\ta[1:2:3]\tok\n\
Expression\ta.(int)\tok\n\
Expression\ta.(*p.T).b\tok\n\
Expression\tfunc() {}\tok\n\
Expression\tfunc(a int) int { return a }(1)\tok\n\
Expression\t[]int{}\tok\n\
Expression\t[]int{1, 2, 3,}\tok\n\
Expression\t[...]int{1, 2}\tok\n\
Expression\t[2]int{0: 1, 1: 2}\tok\n\
Expression\tmap[string]int{\"a\": 1}\tok\n\
Expression\tT{}\tok\n\
Expression\tp.T{a: 1}\tok\n\
Expression\tT{a: {1}, b: {{2}}}\tok\n\
Expression\t[]T{{1}, {2}}\tok\n\
Expression\tmap[T]U{{1}: {2}}\tok\n\
Expression\tstruct{ a int }{1}\tok\n\
Expression\t&T{1}\tok\n\
Expression\t[]byte(\"a\")\tok\n\
Expression\t[]byte(a,)\tok\n\
Expression\tmap[string]int(a)\tok\n\
Expression\tchan int(a)\tok\n\
Expression\tfunc(int) string(a)\tok\n\
Expression\tstruct{}(a)\tok\n\
Expression\tinterface{}(a)\tok\n\
Expression\t(<-chan int)(a)\tok\n\
Expression\t(func())(a)\tok\n\
Expression\t(T)(a)\tok\n\
Expression\ta.b.c(d)[e].f\tok\n\
Expression\tT{1}.a\tok\n\
Expression\ta == T{1}\tok\n\
Expression\tf(T{1}, 2)\tok\n\
Expression\t(T{1})\tok\n\
Expression\t[]int(nil)[0]\tok\n\
Expression\tfunc() { func() {}() }\tok\n\
Expression\t\t6\n\
Expression\tfunc()(a)\t12\n\
Expression\ta +\t8\n\
Expression\t* \t7\n\
Expression\t(a\t8\n\
Expression\t()\t7\n\
Expression\ta b\t7\n\
Expression\ta..b\t8\n\
Expression\ta.\t8\n\
Expression\ta.1\t7\n\
Expression\tf(,)\t8\n\
Expression\tf(a,,b)\t10\n\
Expression\tf(a b)\t9\n\
Expression\tf(...)\t8\n\
Expression\tf(a..., b)\t11\n\
Expression\ta[]\t8\n\
Expression\ta[1,2]\t9\n\
Expression\ta[::]\t9\n\
Expression\ta[1::3]\t10\n\
Expression\ta[1:2:]\t12\n\
Expression\ta[:2:]\t11\n\
Expression\ta.()\t9\n\
Expression\ta.(type)\t9\n\
Expression\t[]int\t9\n\
Expression\t[]int + 1\t9\n\
Expression\tint]\t7\n\
Expression\t{1}\t6\n\
Expression\tT{,}\t8\n\
Expression\tT{1 2}\t9\n\
Expression\tT{a: b: c}\t11\n\
Expression\t[...]int\t10\n\
Expression\t[...]int(a)\t10\n\
Expression\tmap[string]int\t11\n\
Expression\tstruct{ T }.m\t10\n\
Expression\t[]byte(a, b)\t12\n\
Expression\tfunc()\t9\n\
Expression\tfunc() + 1\t9\n\
Expression\t1 2\t7\n\
Expression\ta ++\t7\n\
Expression\ta := b\t7\n\
Expression\tif a\t6\n\
Expression\ta = b\t7\n\
Expression\tf(a...b)\t10\n\
Expression\tf(int...string)\t10\n\
Expression\t!\t7\n\
Expression\tT{1\t9\n\
Expression\tinterface{ m() }.m\t12\n\
Expression\t*[]int\t10\n\
Expression\t(T{1)\t10\n\
Statement\t\tok\n\
Statement\tL\tok\n\
Statement\tselect { case a: b: }\tok\n\
Statement\ta\tok\n\
Statement\tf()\tok\n\
Statement\ta <- b\tok\n\
Statement\ta++\tok\n\
Statement\ta--\tok\n\
Statement\ta = b\tok\n\
Statement\ta, b = b, a\tok\n\
Statement\ta += 1\tok\n\
Statement\ta, b += 1\tok\n\
Statement\ta &^= b\tok\n\
Statement\ta := 1\tok\n\
Statement\ta, b := f()\tok\n\
Statement\tvar a int\tok\n\
Statement\tconst a = 1\tok\n\
Statement\ttype T int\tok\n\
Statement\t{}\tok\n\
Statement\t{ a }\tok\n\
Statement\t{ a; }\tok\n\
Statement\t{ ; }\tok\n\
Statement\t;\tok\n\
Statement\ta;;b\tok\n\
Statement\tL: a\tok\n\
Statement\tL:\tok\n\
Statement\tL: ;\tok\n\
Statement\tL: M: a\tok\n\
Statement\tL: {}\tok\n\
Statement\tL: for {}\tok\n\
Statement\tgo f()\tok\n\
Statement\tgo a\tok\n\
Statement\tdefer f()\tok\n\
Statement\treturn\tok\n\
Statement\treturn a\tok\n\
Statement\treturn a, b\tok\n\
Statement\tbreak\tok\n\
Statement\tbreak L\tok\n\
Statement\tcontinue\tok\n\
Statement\tcontinue L\tok\n\
Statement\tgoto L\tok\n\
Statement\tfallthrough\tok\n\
Statement\tif a {}\tok\n\
Statement\tif a {} else {}\tok\n\
Statement\tif a {} else if b {} else {}\tok\n\
Statement\tif a := 1; a {}\tok\n\
Statement\tif ; a {}\tok\n\
Statement\tif f(); a {}\tok\n\
Statement\tif a {} else if b := 1; b {} else if c {}\tok\n\
Statement\tswitch {}\tok\n\
Statement\tswitch a {}\tok\n\
Statement\tswitch a := 1; a {}\tok\n\
Statement\tswitch ; {}\tok\n\
Statement\tswitch a := 1; {}\tok\n\
Statement\tswitch { case a: f(); case b, c: default: }\tok\n\
Statement\tswitch a { case 1: f() }\tok\n\
Statement\tswitch a.(type) {}\tok\n\
Statement\tswitch a := b.(type) { case int, *T, []int, nil: f(); default: }\tok\n\
Statement\tswitch f(); a.(type) {}\tok\n\
Statement\tswitch a := 1; b := a.(type) { case (int): }\tok\n\
Statement\tswitch a := b; a {}\tok\n\
Statement\tswitch a, b := 1, 2; a {}\tok\n\
Statement\tselect {}\tok\n\
Statement\tselect { case a <- b: f(); case <-c: case d = <-e: case f := <-g: case h, i = <-j: case k, l := <-m: default: }\tok\n\
Statement\tfor {}\tok\n\
Statement\tfor a {}\tok\n\
Statement\tfor ;; {}\tok\n\
Statement\tfor a := 0; a < 1; a++ {}\tok\n\
Statement\tfor a := 0; a < 1; {}\tok\n\
Statement\tfor ; a; {}\tok\n\
Statement\tfor ;; a++ {}\tok\n\
Statement\tfor a = 0; ; a++ {}\tok\n\
Statement\tfor range a {}\tok\n\
Statement\tfor a := range b {}\tok\n\
Statement\tfor a, b := range c {}\tok\n\
Statement\tfor a = range b {}\tok\n\
Statement\tfor a.b, c[1] = range d {}\tok\n\
Statement\tfor a() := range b {}\tok\n\
Statement\tfor f() {}\tok\n\
Statement\tif (T{1}) == a {}\tok\n\
Statement\tif a == (T{1}) {}\tok\n\
Statement\tif f(T{1}) {}\tok\n\
Statement\tif a[T{1}] {}\tok\n\
Statement\tif []int{1}[0] == a {}\tok\n\
Statement\tif a == struct{}{} {}\tok\n\
Statement\tif map[string]int{}[a] == 1 {}\tok\n\
Statement\tfor a := range []int{1} {}\tok\n\
Statement\tswitch (T{}) {}\tok\n\
Statement\tif func() bool { return T{1} == a }() {}\tok\n\
Statement\t(a) = b\tok\n\
Statement\t*a = b\tok\n\
Statement\t<-a\tok\n\
Statement\ta.b++\tok\n\
Statement\tvar x []int\tok\n\
Statement\t[]int{1}[0] = 2\tok\n\
Statement\tfunc() {}()\tok\n\
Statement\tif a { b } else { c }\tok\n\
Statement\tswitch a { case T{1}: }\tok\n\
Statement\tswitch <-a {}\tok\n\
Statement\tif <-a {}\tok\n\
Statement\tfor <-a {}\tok\n\
Statement\tswitch a := (b).(type) {}\tok\n\
Statement\tif a := (T{1}).b; a {}\tok\n\
Statement\tx := ([]int)\tok\n\
Statement\tselect { case (<-a): }\tok\n\
Statement\tswitch { case []int: case map[string]int, func(): }\tok\n\
Statement\tif x, y := 1, 2; x {}\tok\n\
Statement\tgoto a\tok\n\
Statement\tL: if a {}\tok\n\
Statement\tgo func() {}()\tok\n\
Statement\treturn func() {}\tok\n\
Statement\treturn []int{1}\tok\n\
Statement\ta[1:2] = b\tok\n\
Statement\ta b\t9\n\
Statement\ta = \t10\n\
Statement\ta := \t10\n\
Statement\t1 := 2 3\t9\n\
Statement\ta.b := 1\t11\n\
Statement\ta, b++\t11\n\
Statement\ta, b\t11\n\
Statement\ta <- \t10\n\
Statement\ta +\t10\n\
Statement\tvar a\t10\n\
Statement\tif {}\t9\n\
Statement\tif a\t11\n\
Statement\tif a {} else\t13\n\
Statement\tif a {} else b\t13\n\
Statement\tif ; {}\t10\n\
Statement\tif a; {}\t11\n\
Statement\tif a := 1 {}\t12\n\
Statement\tif a; b; c {}\t12\n\
Statement\tif a == T{1} {}\t15\n\
Statement\tif T{1} == a {}\t13\n\
Statement\tif a {}; else {}\t13\n\
Statement\tfor a; b {}\t12\n\
Statement\tfor a; b; c; d {}\t14\n\
Statement\tfor a := 1 {}\t12\n\
Statement\tfor ; {}\t10\n\
Statement\tfor range {}\t10\n\
Statement\tfor a range b {}\t10\n\
Statement\tfor a + range b {}\t11\n\
Statement\tswitch a; b; {}\t12\n\
Statement\tswitch a := 1 {}\t12\n\
Statement\tswitch a { f() }\t11\n\
Statement\tswitch a { case: }\t12\n\
Statement\tswitch a { case 1 f() }\t13\n\
Statement\tswitch a { default f() }\t12\n\
Statement\tswitch a { default: default }\t14\n\
Statement\tswitch a.(type) + 1 {}\t14\n\
Statement\tswitch a, b := c.(type) {}\t16\n\
Statement\tswitch a = b.(type) {}\t14\n\
Statement\tswitch -a.(type) {}\t13\n\
Statement\tswitch a.(type); b {}\t14\n\
Statement\tswitch a := 1; b := a < c {}\t16\n\
Statement\tswitch a := 1; b := !a.(type) {}\t15\n\
Statement\tswitch ; b := a {}\t13\n\
Statement\tswitch a; b := a.(type) + 1 {}\t18\n\
Statement\tswitch a; b := c, d {}\t14\n\
Statement\tswitch a; b := (c).d[0].(type) {}\tok\n\
Statement\tswitch ; b := <-c {}\t12\n\
Statement\ta.(type)\t11\n\
Statement\tselect { f() }\t10\n\
Statement\tselect { case: }\t11\n\
Statement\tselect { case a, b: }\t14\n\
Statement\tselect { case a := b c: }\t14\n\
Statement\tselect { case a = : }\t13\n\
Statement\tgo\t9\n\
Statement\tdefer\t9\n\
Statement\tgo a, b\t10\n\
Statement\treturn a,\t11\n\
Statement\tbreak 1\t9\n\
Statement\tcontinue a b\t10\n\
Statement\tgoto\t9\n\
Statement\tgoto 1\t9\n\
Statement\tfallthrough a\t9\n\
Statement\tL: }\t12\n\
Statement\tL: case 1:\t10\n\
Statement\t{\t11\n\
Statement\t}\t10\n\
Statement\ta++ + 1\t10\n\
Statement\ta++ b\t10\n\
Statement\t++a\t8\n\
Statement\ta := range b\t10\n\
Statement\timport \"a\"\t8\n\
Statement\tfunc f() {}\t9\n\
Statement\tfunc f()\t9\n\
Statement\tx := func()\t13\n\
Statement\telse {}\t8\n\
Statement\tcase 1:\t8\n\
Statement\tswitch a { case 1: L: case 2: }\t16\n\
Statement\trange a\t8\n\
Statement\tfor a := range b; c; d {}\t13\n\
Statement\tfor a = 1; b := 2; c {}\t14\n\
Statement\tif a == b {} {\t14\n\
Statement\tvar (a int\t13\n\
Statement\tif x := range a {}\t11\n\
Statement\tswitch T{1} {}\t11\n\
Statement\tfor a := T{1}; a; {}\t12\n\
Statement\tif interface{ m() }(a) {} else 1\t21\n\
Statement\tL: M: case\t12\n\
Statement\tpackage q\t8\n\
Statement\ta, b <- c\t11\n\
Statement\t<-a <- b c\t12\n\
Statement\tf(a, *b, (c), p.q)\tok\n\
Statement\tx := chan int(a)\tok\n\
Statement\tx := []int(a)\tok\n\
Top\tfunc f() (a)\tok\n\
Top\tfunc f() (a, b)\tok\n\
Top\tfunc f() ((int))\tok\n\
Top\tfunc f() *int {}\tok\n\
Top\tfunc f() []int {}\tok\n\
Top\tfunc f() 1\t7\n\
Top\tfunc f() (((int)\t12\n\
Top\tfunc f() int string\t8\n\
";

// Declarations behind `package p` and the nodes of their files: kind, first token and last, and behind `>` and `~` the
// numbers of the first child and of the next sibling. Written from the grammar by hand.
static TREES: [(&str, &str); 8] = [
    (
        "package p\nimport (\"a\"; . \"b\"; m \"c\")\n",
        "File:0-13>1 DeclName:1-1~2 ImportGroup:3-12>3 Spec:5-5>4~5 ImportPath:5-5 DotSpec:7-8>6~7 ImportPath:8-8 NamedSpec:10-11>8 DeclName:10-10~9 ImportPath:11-11",
    ),
    (
        "package p\nfunc (t *T) m(a, b int, c ...string) (int, error) { return a }\n",
        "File:0-29>1 DeclName:1-1~2 FuncDecl:3-28>3 NamedParams:4-8>4~8 NamedParam:5-7>5 DeclName:5-5~6 PointerType:6-7>7 TypeName:7-7 DeclName:9-9~9 Signature:10-24>10~24 NamedParams:10-19>11~19 LoneParam:11-11>12~13 DeclName:11-11 NamedParam:13-14>14~16 DeclName:13-13~15 TypeName:14-14 NamedVariadic:16-18>17 DeclName:16-16~18 TypeName:18-18 Params:20-24>20 Param:21-21>21~22 TypeName:21-21 Param:23-23>23 TypeName:23-23 Block:25-28>25 Return:26-27>26 NameUse:27-27",
    ),
    (
        "package p\ntype T struct { a, b int; *q.U `x` }; type E = map[string]<-chan func()\n",
        "File:0-31>1 DeclName:1-1~2 TypeDecl:3-17>3~14 TypeSpec:4-17>4 DeclName:4-4~5 StructType:5-17>6 Field:7-10>7~11 Names:7-9>8~10 DeclName:7-7~9 DeclName:9-9 TypeName:10-10 EmbeddedPointer:12-16>12 QualifiedType:13-15~13 Tag:16-16 TypeDecl:19-30>15 AliasSpec:20-30>16 DeclName:20-20~17 MapType:22-30>18 TypeName:24-24~19 ReceiveType:26-30>20 FuncType:28-30>21 Signature:29-30>22 Params:29-30",
    ),
    (
        "package p\nvar x = -a.b[1:2]*f(c, d...) + T{k: 1, {2}}\n",
        "File:0-34>1 DeclName:1-1~2 VarDecl:3-33>3 VarSpec:4-33>4 Names:4-4>5~6 DeclName:4-4 Exprs:6-33>7 Binary:6-33>8 Binary:6-22>9~20 Negative:6-14>10~16 SliceBetween:7-14>11 Selector:7-9>12~14 NameUse:7-7~13 SelectedName:9-9 Literal:11-11~15 Literal:13-13 SpreadCall:16-22>17 NameUse:16-16~18 NameUse:18-18~19 NameUse:20-20 Composite:24-33>21 TypeName:24-24~22 Elems:25-33>23 KeyedItem:26-28>24~26 NameUse:26-26~25 Literal:28-28 Item:30-32>27 Elems:30-32>28 Item:31-31>29 Literal:31-31",
    ),
    (
        "package p\nvar x = f(<-chan int, []int(nil), <-c)\n",
        "File:0-22>1 DeclName:1-1~2 VarDecl:3-21>3 VarSpec:4-21>4 Names:4-4>5~6 DeclName:4-4 Exprs:6-21>7 Call:6-21>8 NameUse:6-6~9 ReceiveType:8-10>10~11 TypeName:10-10 Conversion:12-17>12~15 SliceType:12-14>13~14 TypeName:14-14 NameUse:16-16 Receive:19-20>16 NameUse:20-20",
    ),
    (
        "package p\nfunc f() { L: for i := 0; i < n; i++ { if a := b; a { continue L } else if c { break } else { } } }\n",
        "File:0-43>1 DeclName:1-1~2 FuncDecl:3-42>3 DeclName:4-4~4 Signature:5-6>5~6 Params:5-6 Block:7-42>7 Labeled:8-41>8 DeclName:8-8~9 For:10-41>10 Init:11-13>11~16 Define:11-13>12 Names:11-11>13~14 DeclName:11-11 Exprs:13-13>15 Literal:13-13 Binary:15-17>17~19 NameUse:15-15~18 NameUse:17-17 Post:19-20>20~22 Increment:19-20>21 NameUse:19-19 Block:21-41>23 If:22-40>24 Init:23-25>25~30 Define:23-25>26 Names:23-23>27~28 DeclName:23-23 Exprs:25-25>29 NameUse:25-25 NameUse:27-27~31 Block:28-31>32~34 Continue:29-30>33 LabelUse:30-30 If:33-40>35 NameUse:34-34~36 Block:35-37>37~38 Break:36-36 Block:39-40",
    ),
    (
        "package p\nfunc f() { switch x := y.(type) { case int, nil: ; default: g() }; switch a, b := 1, 2; a { } }\n",
        "File:0-43>1 DeclName:1-1~2 FuncDecl:3-42>3 DeclName:4-4~4 Signature:5-6>5~6 Params:5-6 Block:7-42>7 TypeSwitch:8-28>8~21 NamedGuard:9-15>9~12 DeclName:9-9~10 Guard:11-15>11 NameUse:11-11 Case:17-22>13~17 Values:18-20>14~16 NameUse:18-18~15 NameUse:20-20 Empty:22-22 Default:23-27>18 ExprStmt:25-27>19 Call:25-27>20 NameUse:25-25 Switch:30-41>22 Init:31-37>23~30 Define:31-37>24 Names:31-33>25~27 DeclName:31-31~26 DeclName:33-33 Exprs:35-37>28 Literal:35-35~29 Literal:37-37 NameUse:39-39",
    ),
    (
        "package p\nfunc f() { select { case c <- 1: case v, ok = <-c: case w := <-c: case <-c: default: }; for k, v := range m { a[k] += v }; go f(); defer g() }\n",
        "File:0-63>1 DeclName:1-1~2 FuncDecl:3-62>3 DeclName:4-4~4 Signature:5-6>5~6 Params:5-6 Block:7-62>7 Select:8-35>8~26 SendCase:10-14>9~11 NameUse:11-11~10 Literal:13-13 AssignCase:15-22>12~17 Exprs:16-18>13~15 NameUse:16-16~14 NameUse:18-18 Receive:20-21>16 NameUse:21-21 DefineCase:23-28>18~22 Exprs:24-24>19~20 NameUse:24-24 Receive:26-27>21 NameUse:27-27 ReceiveCase:29-32>23~25 Receive:30-31>24 NameUse:31-31 Default:33-34 DefineRange:37-51>27~39 Exprs:38-40>28~30 NameUse:38-38~29 NameUse:40-40 NameUse:43-43~31 Block:44-51>32 OpAssign:45-50>33 Exprs:45-48>34~37 Index:45-48>35 NameUse:45-45~36 NameUse:47-47 Exprs:50-50>38 NameUse:50-50 Go:53-56>40~42 Call:54-56>41 NameUse:54-54 Defer:58-61>43 Call:59-61>44 NameUse:59-59",
    ),
];

// What stands before a text and behind it.
fn around(kind: &str) -> (&'static str, &'static str) {
    match kind {
        "Top" => ("package p\n", "\n"),
        "Statement" => ("package p\nfunc f() {\n", "\n}\n"),
        "Expression" => ("package p\nvar x = ", "\n"),
        "Type" => ("package p\nvar x ", "\n"),
        _ => ("", ""),
    }
}

// What parsing the text answers.
fn shown(alloc: Global, bytes: &[u8]) -> Result<String, Fail>
    requires { length bytes.now < 2 ^ 32 }
{
    let mut line = String::new(alloc);
    let Ok(lexed) = lex(alloc, bytes) else {
        line.push_str("no tokens")?;
        return Ok(line);
    };
    match parse(alloc, lexed.tokens.as_vec()) {
        Ok(_) => line.push_str("ok")?,
        Err(ParseFault::Syntax { token }) => write!(line, "{token}")?,
        Err(ParseFault::TooDeep { token }) => write!(line, "deep {token}")?,
        Err(ParseFault::Memory) => line.push_str("out of memory")?,
    }
    Ok(line)
}

#[test]
fn small_files_have_a_tree_or_a_fault(rt: HostRuntime) -> Result<(), Fail> {
    for case in CASES.lines() {
        let mut parts = case.split('\t');
        let (Some(kind), Some(text), Some(want)) = (parts.next(), parts.next(), parts.next()) else {
            continue;
        };
        let (before, behind) = around(kind);
        let mut file = String::new(rt.alloc());
        file.push_str(before)?;
        file.push_str(text)?;
        file.push_str(behind)?;
        assert!(rt; file.len() < 1000);
        assert_eq!(rt;
            shown(rt.alloc(), file.as_bytes())?.as_str(),
            want,
            "at {text}"
        );
    }
    Ok(())
}

// The nodes of a file in one line.
fn shown_nodes(alloc: Global, bytes: &[u8]) -> Result<String, Fail>
    requires { length bytes.now < 2 ^ 32 }
{
    let mut line = String::new(alloc);
    let Ok(lexed) = lex(alloc, bytes) else {
        line.push_str("no tokens")?;
        return Ok(line);
    };
    let Ok(tree) = parse(alloc, lexed.tokens.as_vec()) else {
        line.push_str("no tree")?;
        return Ok(line);
    };
    for node in tree.nodes.as_slice() {
        if line.len() > 0 {
            line.push_str(" ")?;
        }
        let kind = node.kind;
        let token = node.token;
        let last = node.last;
        write!(line, "{kind:?}:{token}-{last}")?;
        if let Some(first) = node.first {
            write!(line, ">{first}")?;
        }
        if let Some(next) = node.next {
            write!(line, "~{next}")?;
        }
    }
    Ok(line)
}

#[test]
fn trees_have_the_nodes_of_the_grammar(rt: HostRuntime) -> Result<(), Fail> {
    for (text, want) in TREES {
        assert!(rt; text.len() < 1000);
        assert_eq!(rt; shown_nodes(rt.alloc(), text.as_bytes())?.as_str(), want);
    }
    Ok(())
}

// The packages that a stub stands for.
static STUBS: [&str; 8] = [
    "errors", "fmt", "os", "os/exec", "strings", "log", "strconv", "sync",
];

#[test]
fn each_stub_has_a_tree(rt: HostRuntime) -> Result<(), Fail> {
    for path in STUBS {
        let Some(text) = stub(path) else {
            assert!(rt; false, "no stub of {path}");
            continue;
        };
        assert!(rt; text.len() < 100_000);
        assert_eq!(rt;
            shown(rt.alloc(), text.as_bytes())?.as_str(),
            "ok",
            "the stub of {path}"
        );
    }
    Ok(())
}

// Files in which braces follow a type's bare name, in the head of an `if` and in parentheses there.
static HEADS: [(&str, &str); 2] = [
    (
        "package main\ntype T struct{ a int }\nfunc main() {\n\tx := T{1}\n\tif x == T{1} {\n\t}\n}\n",
        "30",
    ),
    (
        "package main\ntype T struct{ a int }\nfunc main() {\n\tx := T{1}\n\tif x == (T{1}) {\n\t}\n}\n",
        "ok",
    ),
];

#[test]
fn braces_in_heads_are_those_of_the_body(rt: HostRuntime) -> Result<(), Fail> {
    for (text, want) in HEADS {
        assert!(rt; text.len() < 1000);
        assert_eq!(rt; shown(rt.alloc(), text.as_bytes())?.as_str(), want);
    }
    Ok(())
}

// An expression in so many parentheses.
fn nested(alloc: Global, count: usize) -> Result<String, Fail> {
    let mut file = String::new(alloc);
    file.push_str("package main\nvar x = ")?;
    for _ in 0..count {
        file.push_str("(")?;
    }
    file.push_str("1")?;
    for _ in 0..count {
        file.push_str(")")?;
    }
    file.push_str("\nfunc main() {}\n")?;
    Ok(file)
}

#[test]
fn files_are_read_to_the_depth_that_is_allowed(rt: HostRuntime) -> Result<(), Fail> {
    for (count, want) in [(200, "ok"), (201, "deep 207")] {
        let file = nested(rt.alloc(), count)?;
        assert!(rt; file.len() < 1000);
        assert_eq!(rt; shown(rt.alloc(), file.as_bytes())?.as_str(), want);
    }
    Ok(())
}
