// The texts, a function for each, as the definitions of specs/Texts have them line by line.
ghost use Rattle.std.specs.Prelude.{◌≡◌};
ghost use Rattle.argot_stubs.specs.Texts.{errors_text, fmt_text, os_text, exec_text, strings_text, log_text, strconv_text, sync_text};

/// The stub of `errors`.
pub fn errors_stub() -> &'static str
    ensures { result.now ≡ errors_text }
{
    concat!(
        "package errors\n",
        "type text struct{ s string }\n",
        "func (e *text) Error() string { return e.s }\n",
        "func New(s string) error { return &text{s} }\n",
    )
}

/// The stub of `fmt`.
pub fn fmt_stub() -> &'static str
    ensures { result.now ≡ fmt_text }
{
    concat!(
        "package fmt\n",
        "import \"errors\"\n",
        "func Sprint(a ...any) string\n",
        "func Sprintf(format string, a ...any) string\n",
        "func Sprintln(a ...any) string\n",
        "func Print(a ...any) (int, error) { return len(a), errors.New(Sprint(a...)) }\n",
        "func Println(a ...any) (int, error) { return len(a), errors.New(Sprint(a...)) }\n",
        "func Printf(format string, a ...any) (int, error) { return len(a), errors.New(Sprint(a...)) }\n",
        "func Errorf(format string, a ...any) error { return errors.New(Sprintf(format, a...)) }\n",
    )
}

/// The stub of `os`.
pub fn os_stub() -> &'static str
    ensures { result.now ≡ os_text }
{
    concat!(
        "package os\n",
        "import \"errors\"\n",
        "type File struct{ name string }\n",
        "var Args = args()\n",
        "var Stdin = &File{\"stdin\"}\n",
        "var Stdout = &File{\"stdout\"}\n",
        "var Stderr = &File{\"stderr\"}\n",
        "func args() []string\n",
        "func content(name string) []byte\n",
        "func Getenv(key string) string\n",
        "func Exit(code int)\n",
        "func ReadFile(name string) ([]byte, error) { return content(name), errors.New(name) }\n",
        "func (f *File) Read(b []byte) (int, error) { return copy(b, content(f.name)), errors.New(f.name) }\n",
        "func (f *File) Write(b []byte) (int, error) { return len(b), errors.New(f.name) }\n",
    )
}

/// The stub of `os/exec`.
pub fn exec_stub() -> &'static str
    ensures { result.now ≡ exec_text }
{
    concat!(
        "package exec\n",
        "import \"errors\"\n",
        "type Cmd struct { Path string; Args []string; Dir string }\n",
        "func Command(name string, arg ...string) *Cmd { return &Cmd{Path: name, Args: append([]string{name}, arg...)} }\n",
        "func result(c *Cmd) string\n",
        "func (c *Cmd) Run() error { return errors.New(result(c)) }\n",
        "func (c *Cmd) Output() ([]byte, error) { return []byte(result(c)), errors.New(result(c)) }\n",
    )
}

/// The stub of `strings`.
pub fn strings_stub() -> &'static str
    ensures { result.now ≡ strings_text }
{
    concat!(
        "package strings\n",
        "func Contains(s, t string) bool\n",
        "func HasPrefix(s, t string) bool\n",
        "func HasSuffix(s, t string) bool\n",
        "func Index(s, t string) int\n",
        "func Join(a []string, sep string) string\n",
        "func Split(s, sep string) []string\n",
        "func Fields(s string) []string\n",
        "func ReplaceAll(s, old, new string) string\n",
        "func ToLower(s string) string\n",
        "func ToUpper(s string) string\n",
        "func TrimSpace(s string) string\n",
        "func TrimPrefix(s, t string) string\n",
        "func TrimSuffix(s, t string) string\n",
        "func Repeat(s string, n int) string\n",
        "type Builder struct{ s string }\n",
        "func (b *Builder) WriteString(s string) (int, error) { b.s = b.s + s; return len(s), nil }\n",
        "func (b *Builder) String() string { return b.s }\n",
    )
}

/// The stub of `log`.
pub fn log_stub() -> &'static str
    ensures { result.now ≡ log_text }
{
    concat!(
        "package log\n",
        "func Print(a ...any) {}\n",
        "func Println(a ...any) {}\n",
        "func Printf(format string, a ...any) {}\n",
        "func Fatal(a ...any) {}\n",
        "func Fatalf(format string, a ...any) {}\n",
    )
}

/// The stub of `strconv`.
pub fn strconv_stub() -> &'static str
    ensures { result.now ≡ strconv_text }
{
    concat!(
        "package strconv\n",
        "import \"errors\"\n",
        "func number(s string) int\n",
        "func Itoa(n int) string\n",
        "func Quote(s string) string\n",
        "func Atoi(s string) (int, error) { return number(s), errors.New(s) }\n",
    )
}

/// The stub of `sync`.
pub fn sync_stub() -> &'static str
    ensures { result.now ≡ sync_text }
{
    concat!(
        "package sync\n",
        "type Mutex struct{ n int32 }\n",
        "func (m *Mutex) Lock() {}\n",
        "func (m *Mutex) Unlock() {}\n",
        "type WaitGroup struct{ n int32 }\n",
        "func (w *WaitGroup) Add(n int) {}\n",
        "func (w *WaitGroup) Done() {}\n",
        "func (w *WaitGroup) Wait() {}\n",
        "type Once struct{ n int32 }\n",
        "func (o *Once) Do(f func()) { f() }\n",
    )
}
